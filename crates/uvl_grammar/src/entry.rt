//! What stands in braces behind a feature:
//! `braces = "{" (entry ("," entry)*)? "}"`, `entry = plain | "constraint" expr | "constraints" "[" (expr ("," expr)*)? "]"`.
use sqlite_items::Items;
use uvl_ast::{Attribute, Expr};

/// An entry in braces.
#[derive(Drop)]
pub enum Entry {
    /// An attribute.
    Plain(Attribute),
    /// What stands behind `constraint`.
    Rule(Expr),
    /// What stands in the brackets behind `constraints`.
    Rules(Items<Expr>),
}
