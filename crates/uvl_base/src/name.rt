//! The name of a feature, of an attribute or of a session.
ghost use Rattle.std.specs.Prelude.{◌≡◌, ◌↔◌, ◌++◌, OnOk, OnErr, IfOk, IsErrOf, IsTrue, IsFalse, chars, encode_utf8_all};
ghost use Rattle.std.specs.List.{list_all};
ghost use Rattle.uvl_base.specs.Name.{is_name, may_stand_in_name, needs_quotes, quoted, written_name};

use crate::identifier::is_identifier;
use crate::text::{OutOfMemory, Text};
use crate::word::is_reserved;
use std::alloc::{AllocError, Global};
use std::default::MadeWith;
use std::marker::Model;
use thiserror::Error;

/// Why a text was not taken as a name.
#[derive(Clone, Copy, Debug, PartialEq, Eq, Error)]
pub enum NameFault {
    /// The text is empty, or holds a double quote, LF or CR.
    #[error("a name is not empty, and holds no double quote and no line break")]
    BadName,
    #[error("out of memory")]
    OutOfMemory,
}

impl From<AllocError> for NameFault {
    ghost use Rattle.std.specs.Prelude.{◌≡◌};
    ghost use Rattle.uvl_base.specs.declared.name.NameFault.TheVariants.{OutOfMemory};

    ghost from_gives = { λ _ e. e ≡ OutOfMemory };

    fn from(_: AllocError) -> NameFault {
        NameFault::OutOfMemory
    }
}

/// What a blank name reads as.
const BLANK: &str = "_";

/// A name: at least one character, none of them a double quote, LF or CR. Contracts see its
/// characters. What a UVL file writes as an identifier and what it writes in double quotes are
/// one name where their characters are the same.
#[derive(Clone, Debug, Drop)]
pub struct Name {
    text: Text,
}

impl Model for Name {
    ghost use Rattle.std.specs.Prelude.{List, ℕ, IsTrue};
    ghost use Rattle.uvl_base.specs.Name.{is_name, characters_of};

    ghost Value = { List ℕ };

    ghost view = { λ n. characters_of n.text };

    ghost invariant = { λ n. IsTrue (is_name (characters_of n.text)) };
}

impl Name {
    /// The name with these characters. It is refused as `BadName` exactly where they are no name.
    pub fn new(alloc: Global, text: &str) -> Result<Name, NameFault>
        ensures characters { IfOk result (λ n. n ≡ chars text.now) }
        ensures bad_name { IsErrOf result NameFault.BadName ↔ IsFalse (is_name (chars text.now)) }
    {
        if !is_name(text) {
            return Err(NameFault::BadName);
        }
        let text = Text::new(alloc, text)?;
        Ok(Name { text })
    }

    /// The name with a text in front, each character of which may stand in a name. Only the memory of
    /// the new name is taken, and its characters are not looked at.
    pub fn behind(alloc: Global, front: &str, name: &Name) -> Result<Name, OutOfMemory>
        requires { IsTrue (list_all may_stand_in_name (chars front.now)) }
        ensures { IfOk result (λ whole. whole ≡ chars front.now ++ name.now) }
    {
        let name = name.text();
        let mut text = String::with_capacity(alloc, front.len().saturating_add(name.len()))?;
        text.push_str(front)?;
        text.push_str(name)?;
        Ok(Name {
            text: Text::from(text),
        })
    }

    /// The characters, lent.
    pub fn text(&self) -> &str
        ensures characters { chars result.now ≡ self.now }
        ensures bytes { result.now ≡ encode_utf8_all self.now }
        ensures name { IsTrue (is_name self.now) }
    {
        let text = self.text.text();
        if text.is_empty() { BLANK } else { text }
    }

    /// Whether UVL writes the name in double quotes: exactly where its text is no identifier, or is
    /// a reserved word.
    pub fn needs_quotes(&self) -> bool
        ensures { result ≡ needs_quotes self.now }
    {
        let text = self.text();
        !is_identifier(text) || is_reserved(text)
    }

    /// Appends the name as UVL writes it, in double quotes where it needs them. Where memory is
    /// wanting, nothing is appended.
    pub fn print(&self, _alloc: Global, into: &mut Vec<u8>) -> Result<(), OutOfMemory>
        ensures written { OnOk result (into.new.items ≡ into.old.items ++ encode_utf8_all (written_name self.now)) }
        ensures unchanged { OnErr result (into.new.items ≡ into.old.items) }
    {
        let text = self.text();
        if self.needs_quotes() {
            print_quoted(text, into)
        } else {
            into.extend_from_slice(text.as_bytes())
        }
    }
}

/// Appends a text between double quotes, or nothing where memory is wanting.
fn print_quoted(text: &str, into: &mut Vec<u8>) -> Result<(), OutOfMemory>
    ensures written { OnOk result (into.new.items ≡ into.old.items ++ encode_utf8_all (quoted (chars text.now))) }
    ensures unchanged { OnErr result (into.new.items ≡ into.old.items) }
{
    into.reserve(text.len() + 2)?;
    into.push(b'"')?;
    into.extend_from_slice(text.as_bytes())?;
    into.push(b'"')?;
    Ok(())
}

/// A blank name takes no memory. It stands where a short list keeps room for more names.
impl MadeWith<Global> for Name {
    fn made_with(alloc: Global) -> Name {
        Name {
            text: Text::made_with(alloc),
        }
    }
}

/// Whether a text's characters are a name.
pub fn is_name(text: &str) -> bool
    ensures { result ≡ is_name (chars text.now) }
{
    !text.is_empty() && all_may_stand(text)
}

fn all_may_stand(text: &str) -> bool
    ensures { result ≡ list_all may_stand_in_name (chars text.now) }
{
    text.chars().all(may_stand_in_name)
}

fn may_stand_in_name(character: char) -> bool
    ensures { result ≡ may_stand_in_name character }
{
    !matches!(character, '"' | '\n' | '\r')
}
