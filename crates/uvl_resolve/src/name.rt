//! Names with a text in front, as the qualifiers of placing lines put them there.
ghost use Rattle.std.specs.Prelude.{◌≡◌, ◌++◌, ◌∷◌, [], chars, string_bytes, IfOk};
ghost use Rattle.uvl_placing.specs.Names.{dotted};
ghost use Rattle.uvl_resolve.specs.Under.{MayStandInName};

use std::alloc::{AllocError, Global};
use uvl_base::{Name, NameFault, OutOfMemory};
use uvl_scope::push_dotted;

/// The name with a text in front, which holds nothing that can't stand in a name.
pub(crate) fn name_behind(alloc: Global, text: &str, name: &Name) -> Result<Name, OutOfMemory>
    requires { MayStandInName (chars text.now) }
    ensures { IfOk result (λ whole. whole ≡ chars text.now ++ name.now) }
{
    let mut whole = String::from_str(alloc, text)?;
    whole.push_str(name.text())?;
    match Name::new(alloc, whole.as_str()) {
        Ok(whole) => Ok(whole),
        Err(NameFault::OutOfMemory) => Err(AllocError),
        Err(NameFault::BadName) => unreachable!(),
    }
}

/// The text that stands in front of the names of a placed tree: the text in front of its line, the
/// qualifier, whose names are given, and a dot.
pub(crate) fn text_behind(alloc: Global, text: &str, names: &[Name]) -> Result<String, OutOfMemory>
    requires { MayStandInName (chars text.now) }
    ensures text { IfOk result (λ whole. chars (string_bytes whole) ≡ chars text.now ++ (dotted names.now ++ 46 ∷ [])) }
    ensures name { IfOk result (λ whole. MayStandInName (chars (string_bytes whole))) }
{
    let mut whole = String::from_str(alloc, text)?;
    push_dotted(&mut whole, names)?;
    whole.push_str(".")?;
    Ok(whole)
}
