//! A whole file.
use crate::{Expr, Feature, Ref};
use sqlite_items::Items;
use uvl_base::{Place, Text};

/// The syntax of a UVL file.
#[derive(Debug, Drop)]
pub struct File {
    pub namespace: Option<Ref>,
    /// The lines of `include`: the text of each, its tokens without the spaces between them.
    pub levels: Items<Text>,
    pub imports: Items<Import>,
    /// The root line of the features section; without such a section there is none.
    pub root: Option<Feature>,
    /// The lines of `constraints`.
    pub rules: Items<Expr>,
    /// Where the file ends: behind its last character.
    pub finish: Place,
}

/// A line of `imports`.
#[derive(Debug, Drop)]
pub struct Import {
    /// The names of the folders on the way to the file, and of the file.
    pub path: Ref,
    /// What the file is called here, where that is said.
    pub alias: Option<Ref>,
    /// Where the line's first token stands.
    pub place: Place,
}
