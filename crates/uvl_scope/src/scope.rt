//! What is in scope in the files of a set.
use crate::attributes::AttributeLists;
use crate::names::NameIndex;
use sqlite_items::Items;

/// What is in scope in a file.
#[derive(Debug, Drop)]
pub struct Scope<'a> {
    /// The names of the file's placed tree, by number in document order: its own, and those of the files
    /// that it places under their qualifiers.
    pub names: NameIndex,
    /// What stands in the braces of each of these features.
    pub attributes: AttributeLists<'a>,
    /// How deep that tree is, a root alone being 1 deep.
    pub depth: usize,
    /// How many rules the file has with those that it places.
    pub rules: usize,
    /// How many nodes these have.
    pub nodes: usize,
}

/// The scopes of the files of a set, in their order.
#[derive(Debug, Drop)]
pub struct Scopes<'a> {
    pub scopes: Items<Scope<'a>>,
}
