//! The flat form of a feature model: numbered rows of features and groups, rules over their numbers,
//! and the plain check of one set of features against them.
#![tactic(auto)]

mod check;
mod laws;
mod model;
mod names;
mod numbers;
mod rows;
mod rule;
mod rules;

pub use laws::{
    marks_give_products, products_are_sets, rows_check_products, rows_give_names,
    rows_give_products, rows_tell_products, runs_are_below, small_rules_may_be,
};
pub use model::Model;
pub use names::NameIndex;
pub use rows::{FeatureNo, FeatureRow, GroupRow};
pub use rule::{Cmp, Number, Rule};
