//! Import lines: the file that one names, and its qualifier.
ghost use Rattle.std.specs.Prelude.{◌≡◌, ◌==◌, ◌||◌, ◌∷◌, ◌++◌, [], false, IfOk, OnOk, string_bytes};
ghost use Rattle.std.specs.List.{list_any};
ghost use Rattle.uvl_imports.specs.Paths.{folder_of, each_behind, joined, target_of, dotted, qualifier_of, is_bad_text, is_bad_part, has_bad_name};

use crate::text_index::TextIndex;
use std::alloc::Global;
use uvl_ast::{Import, Ref};
use uvl_base::{Name, OutOfMemory};

/// The path of the file that a line in the file at `path` names.
pub(crate) fn target_of(alloc: Global, path: &str, line: &Import) -> Result<String, OutOfMemory>
    ensures { IfOk result (λ target. string_bytes target ≡ target_of path.now line.now) }
{
    let mut target = folder_of(alloc, path)?;
    push_joined(&mut target, "/", line.path.parts.as_slice())?;
    target.push_str(".uvl")?;
    Ok(target)
}

/// The folder of a path, with the `/` at its end.
fn folder_of(alloc: Global, path: &str) -> Result<String, OutOfMemory>
    ensures { IfOk result (λ folder. string_bytes folder ≡ folder_of path.now) }
{
    let mut folder = String::new(alloc);
    if let Some((outer, _)) = path.rsplit_once('/') {
        folder.push_str(outer)?;
        folder.push_str("/")?;
    }
    Ok(folder)
}

/// Puts names behind a text, with a mark between any two of them.
fn push_joined(text: &mut String, mark: &str, names: &[Name]) -> Result<(), OutOfMemory>
    ensures { OnOk result (string_bytes text.new ≡ string_bytes text.old ++ joined mark.now names.now) }
{
    let Some((first, others)) = names.split_first() else {
        return Ok(());
    };
    text.push_str(first.text())?;
    push_behind(text, mark, others)
}

/// Puts names behind a text, with a mark in front of each.
fn push_behind(text: &mut String, mark: &str, names: &[Name]) -> Result<(), OutOfMemory>
    ensures { OnOk result (string_bytes text.new ≡ string_bytes text.old ++ each_behind mark.now names.now) }
{
    for name in names {
        text.push_str(mark)?;
        text.push_str(name.text())?;
    }
    Ok(())
}

/// What a line calls the file that it names.
fn qualifier_of(alloc: Global, line: &Import) -> Result<String, OutOfMemory>
    ensures { IfOk result (λ qualifier. string_bytes qualifier ≡ qualifier_of line.now) }
{
    match &line.alias {
        Some(alias) => dotted(alloc, alias),
        None => dotted(alloc, &line.path),
    }
}

/// The parts of a reference, joined by dots.
fn dotted(alloc: Global, reference: &Ref) -> Result<String, OutOfMemory>
    ensures { IfOk result (λ text. string_bytes text ≡ dotted reference.now) }
{
    let mut text = String::new(alloc);
    push_joined(&mut text, ".", reference.parts.as_slice())?;
    Ok(text)
}

/// Whether the path or the qualifier of a line cannot be used. If they can, the qualifier is put
/// behind those of the lines in front.
pub(crate) fn has_bad_name(
    alloc: Global,
    qualifiers: &mut TextIndex,
    line: &Import,
) -> Result<bool, OutOfMemory>
    ensures bad { IfOk result (λ bad. bad ≡ has_bad_name qualifiers.old line.now) }
    ensures good { IfOk result (λ bad. bad ≡ false → qualifiers.new ≡ qualifiers.old ++ qualifier_of line.now ∷ []) }
{
    if has_bad_part(line.path.parts.as_slice()) {
        return Ok(true);
    }
    let qualifier = qualifier_of(alloc, line)?;
    let new = qualifiers.add(qualifier)?;
    Ok(!new)
}

/// Whether some part of a path leads elsewhere than into a folder or to a file of that name.
fn has_bad_part(parts: &[Name]) -> bool
    ensures { result ≡ list_any is_bad_part parts.now }
{
    parts.iter().any(|part| is_bad_part(part))
}

/// Whether a part of a path is `.` or `..`, or holds `/` or NUL.
fn is_bad_part(part: &Name) -> bool
    ensures { result ≡ is_bad_part part.now }
{
    is_bad_text(part.text())
}

/// Whether a text is `.` or `..`, or holds `/` or NUL.
fn is_bad_text(text: &str) -> bool
    ensures { result ≡ is_bad_text text.now }
{
    text == "." || text == ".." || leads_elsewhere(text.as_bytes())
}

/// Whether `/` or NUL is among the bytes.
fn leads_elsewhere(bytes: &[u8]) -> bool
    ensures { result ≡ list_any (λ byte. byte == 47 || byte == 0) bytes.now }
{
    bytes.iter().any(|byte| *byte == b'/' || *byte == 0)
}
