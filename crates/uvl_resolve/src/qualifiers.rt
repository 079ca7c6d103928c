//! The qualifiers of the import lines of files.
ghost use Rattle.std.specs.Prelude.{◌≡◌, ◌++◌, map, chars, string_bytes, IfOk, OnOk};
ghost use Rattle.uvl_imports.specs.Sets.{IsWhole};
ghost use Rattle.uvl_imports.specs.Texts.{AreDistinct};
ghost use Rattle.uvl_placing.specs.Names.{qualifier_of};
ghost use Rattle.uvl_resolve.specs.steps.Walk.{qualifiers_of};

use std::alloc::Global;
use uvl_ast::Import;
use uvl_base::OutOfMemory;
use uvl_imports::Loaded;
use uvl_scope::{NameIndex, push_dotted};

/// The qualifiers of the import lines of each file, in which they differ.
pub(crate) fn qualifiers_of(alloc: Global, files: &[Loaded]) -> Result<Vec<NameIndex>, OutOfMemory>
    requires { IsWhole files.now }
    ensures { IfOk result (λ qualifiers. qualifiers.items ≡ qualifiers_of files.now) }
{
    let mut qualifiers = Vec::with_capacity(alloc, files.len())?;
    for loaded in files {
        qualifiers.push(qualifiers_in(alloc, loaded.file.imports.as_slice())?)?;
    }
    Ok(qualifiers)
}

/// The qualifiers of import lines, which differ.
fn qualifiers_in(alloc: Global, lines: &[Import]) -> Result<NameIndex, OutOfMemory>
    requires { AreDistinct (map qualifier_of lines.now) }
    ensures { IfOk result (λ qualifiers. qualifiers ≡ map qualifier_of lines.now) }
{
    let mut qualifiers = NameIndex::new(alloc);
    let mut text = String::new(alloc);
    for line in lines {
        text.clear();
        push_qualifier(&mut text, line)?;
        qualifiers.add(text.as_str())?;
    }
    Ok(qualifiers)
}

/// Puts what a line calls the file that it names behind a text.
fn push_qualifier(text: &mut String, line: &Import) -> Result<(), OutOfMemory>
    ensures { OnOk result (chars (string_bytes text.new) ≡ chars (string_bytes text.old) ++ qualifier_of line.now) }
{
    match &line.alias {
        Some(alias) => push_dotted(text, alias.parts.as_slice()),
        None => push_dotted(text, line.path.parts.as_slice()),
    }
}
