//! The replies to commands, written line by line.
ghost use Rattle.std.specs.Prelude.{◌≡◌, ◌++◌, ◌∷◌, ◌<◌, [], OnOk, codes, length, map};
ghost use Rattle.std.specs.List.{All};
ghost use Rattle.uvl_model.specs.Names.{name_of};
ghost use Rattle.uvl_run.specs.NameList.{name_line, name_list};
ghost use Rattle.uvl_run.specs.YesOrNo.{yes_or_no, word_for};

use std::alloc::{AllocError, Global};
use uvl_base::Name;
use uvl_model::{FeatureNo, FeatureRow};

/// Writes a line of a reply behind what the buffer has.
pub(crate) fn push_line(line: &str, into: &mut Vec<u8>) -> Result<(), AllocError>
    ensures { OnOk result (into.new.items ≡ into.old.items ++ line.now ++ 10 ∷ []) }
{
    into.extend_from_slice(line.as_bytes())?;
    into.push(b'\n')?;
    Ok(())
}

/// Ends a reply: a line with a point stands behind its lines.
pub(crate) fn end_reply(into: &mut Vec<u8>) -> Result<(), AllocError>
    ensures { OnOk result (into.new.items ≡ into.old.items ++ codes ".\n") }
{
    into.extend_from_slice(b".\n".as_slice())
}

/// Writes the reply to a question into an empty buffer.
pub(crate) fn push_yes_or_no(answer: bool, into: &mut Vec<u8>) -> Result<(), AllocError>
    requires { into.old.items ≡ [] }
    ensures { OnOk result (into.new.items ≡ yes_or_no answer) }
{
    push_line(word_for(answer), into)?;
    end_reply(into)
}

/// The word for an answer.
fn word_for(answer: bool) -> &'static str
    ensures { result.now ≡ word_for answer }
{
    if answer { "yes" } else { "no" }
}

/// Writes the reply that is the names of these features into an empty buffer.
pub(crate) fn push_names(
    alloc: Global,
    rows: &[FeatureRow],
    features: &[FeatureNo],
    into: &mut Vec<u8>,
) -> Result<(), AllocError>
    requires there { All (λ feature. feature.0 < length rows.now) features.now }
    requires empty { into.old.items ≡ [] }
    ensures { OnOk result (into.new.items ≡ name_list (map (name_of (map (λ row. row.name) rows.now)) features.now)) }
{
    for feature in features {
        push_name(alloc, &rows[feature.0 as usize].name, into)?;
    }
    end_reply(into)
}

/// Writes a name as a line of a reply, behind what the buffer has.
fn push_name(alloc: Global, name: &Name, into: &mut Vec<u8>) -> Result<(), AllocError>
    ensures { OnOk result (into.new.items ≡ into.old.items ++ name_line name.now ++ 10 ∷ []) }
{
    name.print(alloc, into)?;
    into.push(b'\n')?;
    Ok(())
}
