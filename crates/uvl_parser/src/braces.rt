//! What is kept of the braces behind a feature.
use sqlite_items::Items;
use uvl_ast::{Attribute, Expr};

/// What stands in the braces of a feature: its attributes and its rules, each in their order.
#[derive(Drop)]
pub(crate) struct Kept {
    pub attributes: Items<Attribute>,
    pub rules: Items<Expr>,
}
