//! Names by number, with a look-up by name.
ghost use Rattle.std.specs.Prelude.{◌≡◌, ◌<◌, ℕ, List, Some, slice_get, true, map, string_bytes, OnOk, [], ◌∷◌, ◌++◌, length, position, chars, not, is_some, IfOk, IfSome, IfNone, OnErr, if◌then◌else◌};
ghost use Rattle.std.specs.Str.{bytes_eq};
ghost use Rattle.std.specs.List.{list_any};
ghost use Rattle.uvl_imports.specs.Texts.{AreDistinct};
ghost use Rattle.uvl_semantics.specs.Product.{has};
ghost use Rattle.uvl_semantics.specs.Prefix.{prefixed_name};
ghost use Rattle.uvl_scope.specs.Brought.{has_root};

use indexmap::IndexSet;
use std::alloc::Global;
use std::marker::Model;
use uvl_base::OutOfMemory;

/// Distinct names, numbered from 0 in the order of their adding. Contracts see the list of the
/// names, each as its characters.
#[derive(Debug, Drop)]
pub struct NameIndex {
    names: IndexSet<String>,
}

impl Model for NameIndex {
    ghost use Rattle.std.specs.Prelude.{List, ℕ, map, chars, string_bytes};
    ghost use Rattle.uvl_imports.specs.Texts.{AreDistinct};

    ghost Value = { List (List ℕ) };

    ghost view = { λ i. map (λ name. chars (string_bytes name)) i.names.keys };

    ghost invariant = { λ i. AreDistinct (map (λ name. chars (string_bytes name)) i.names.keys) };
}

impl NameIndex {
    /// No names. It takes no memory before the first is added.
    pub fn new(alloc: Global) -> NameIndex
        ensures { result ≡ [] }
    {
        NameIndex {
            names: IndexSet::new(alloc),
        }
    }

    /// How many names there are.
    pub fn len(&self) -> usize
        ensures count { result ≡ length self.now }
        ensures distinct { AreDistinct self.now }
    {
        self.names.len()
    }

    /// Adds a name behind the others, unless it is there already. The answer says whether it was new.
    pub fn add(&mut self, name: &str) -> Result<bool, OutOfMemory>
        ensures added { IfOk result
            (λ new. self.new ≡ (if new then self.old ++ chars name.now ∷ [] else self.old)) }
        ensures known { IfOk result (λ new. new ≡ not (has self.old (chars name.now))) }
        ensures err { OnErr result (self.new ≡ self.old) }
    {
        let name = String::from_str(*self.names.allocator(), name)?;
        let (_number, new) = self.names.insert_full(name)?;
        Ok(new)
    }

    /// Whether the name is there.
    pub fn has(&self, name: &str) -> bool
        ensures { result ≡ has self.now (chars name.now) }
    {
        self.names.contains(name)
    }

    /// The number of the name.
    pub fn find(&self, name: &str) -> Option<usize>
        ensures number { result ≡ position (bytes_eq (chars name.now)) self.now }
        ensures found { is_some result ≡ has self.now (chars name.now) }
    {
        self.names.get_index_of(name)
    }

    /// The name with this number.
    pub fn name(&self, number: usize) -> &str
        requires { number < length self.now }
        ensures { slice_get self.now number ≡ Some (chars result.now) }
    {
        match self.names.get_index(number) {
            Some(name) => name.as_str(),
            None => "",
        }
    }

    /// Whether the name is the first one.
    pub(crate) fn is_first(&self, name: &str) -> bool
        ensures { result ≡ has_root (chars name.now) self.now }
    {
        match self.names.first() {
            Some(first) => is_same(first.as_str(), name),
            None => false,
        }
    }

    /// Adds names under a qualifier, with a dot between, unless one of them is there: then the answer is no,
    /// and some of them may be added.
    pub(crate) fn add_under(
        &mut self,
        qualifier: &str,
        names: &NameIndex,
    ) -> Result<bool, OutOfMemory>
        ensures new { IfOk result (λ new. new
            ≡ not (list_any (has self.old) (map (prefixed_name (chars qualifier.now)) names.now))) }
        ensures added { IfOk result (λ new. new ≡ true →
            self.new ≡ self.old ++ map (prefixed_name (chars qualifier.now)) names.now) }
    {
        let mut text = String::new(*self.names.allocator());
        for number in 0..names.len() {
            put_under(&mut text, qualifier, names.name(number))?;
            if !self.add(text.as_str())? {
                return Ok(false);
            }
        }
        Ok(true)
    }

    /// Whether one of the names under a qualifier, with a dot between, is there. It makes none of them, and
    /// compares the qualifier with the front of each name that is there.
    pub(crate) fn has_under(&self, qualifier: &str, names: &NameIndex) -> bool
        ensures { result ≡ list_any (has self.now) (map (prefixed_name (chars qualifier.now)) names.now) }
    {
        for number in 0..self.len() {
            if names.is_under(qualifier, self.name(number)) {
                return true;
            }
        }
        false
    }

    /// Whether a name is one of these under a qualifier, with a dot between.
    fn is_under(&self, qualifier: &str, name: &str) -> bool
        ensures { result ≡ has (map (prefixed_name (chars qualifier.now)) self.now) (chars name.now) }
    {
        match behind(qualifier, name) {
            Some(rest) => self.has(rest),
            None => false,
        }
    }
}

/// What stands in a name behind a qualifier and a dot, where it begins with these.
fn behind<'a>(qualifier: &str, name: &'a str) -> Option<&'a str>
    ensures some { IfSome result
        (λ rest. chars name.now ≡ prefixed_name (chars qualifier.now) (chars rest.now)) }
    ensures none { IfNone result
        ((rest : List ℕ) → chars name.now ≡ prefixed_name (chars qualifier.now) rest → ⊥) }
{
    match name.strip_prefix(qualifier) {
        Some(rest) => rest.strip_prefix('.'),
        None => None,
    }
}

/// Whether two texts are the same.
pub(crate) fn is_same(first: &str, second: &str) -> bool
    ensures { result ≡ bytes_eq (chars first.now) (chars second.now) }
{
    first == second
}

/// Makes a text a name under a qualifier, with a dot between.
fn put_under(text: &mut String, qualifier: &str, name: &str) -> Result<(), OutOfMemory>
    ensures { OnOk result
        (chars (string_bytes text.new) ≡ prefixed_name (chars qualifier.now) (chars name.now)) }
{
    text.clear();
    text.push_str(qualifier)?;
    text.push_str(".")?;
    text.push_str(name)?;
    Ok(())
}
