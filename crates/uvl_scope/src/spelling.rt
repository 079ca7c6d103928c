//! Names joined by dots.
ghost use Rattle.std.specs.Prelude.{◌≡◌, ◌++◌, chars, string_bytes, IfOk, OnOk};
ghost use Rattle.uvl_placing.specs.Names.{dotted, behind_dots};
ghost use Rattle.uvl_scope.specs.Spelling.{MayStandInName};

use std::alloc::Global;
use uvl_base::{Name, OutOfMemory};

/// Names joined by dots.
pub(crate) fn dotted(alloc: Global, names: &[Name]) -> Result<String, OutOfMemory>
    ensures { IfOk result (λ text. chars (string_bytes text) ≡ dotted names.now) }
{
    let mut text = String::new(alloc);
    push_dotted(&mut text, names)?;
    Ok(text)
}

/// Puts names behind a text, joined by dots. A text that may stand in a name stays one.
pub fn push_dotted(text: &mut String, names: &[Name]) -> Result<(), OutOfMemory>
    ensures pushed { OnOk result (chars (string_bytes text.new) ≡ chars (string_bytes text.old) ++ dotted names.now) }
    ensures name { OnOk result
        (MayStandInName (chars (string_bytes text.old)) → MayStandInName (chars (string_bytes text.new))) }
{
    let Some((first, others)) = names.split_first() else {
        return Ok(());
    };
    text.push_str(first.text())?;
    push_behind_dots(text, others)
}

/// Puts names behind a text, with a dot in front of each.
fn push_behind_dots(text: &mut String, names: &[Name]) -> Result<(), OutOfMemory>
    ensures pushed { OnOk result
        (chars (string_bytes text.new) ≡ chars (string_bytes text.old) ++ behind_dots names.now) }
    ensures name { OnOk result
        (MayStandInName (chars (string_bytes text.old)) → MayStandInName (chars (string_bytes text.new))) }
{
    for name in names {
        text.push_str(".")?;
        text.push_str(name.text())?;
    }
    Ok(())
}
