//! The syntax of a UVL file, as trees. Contracts see them as plain trees of lists and numbers, equal where their contents are.
#![tactic(auto)]

mod expression;
mod feature;
mod file;
mod names;

pub use expression::{BinOp, Expr};
pub use feature::{AttrValue, Attribute, Feature, Group, GroupKind};
pub use file::{File, Import};
pub use names::{Names, Ref};
