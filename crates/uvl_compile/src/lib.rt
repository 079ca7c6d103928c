//! From a feature model to the decision diagram of its products.
#![tactic(auto)]

mod kept;
mod listed;
mod meet;
mod plan;
mod planned;
mod products;
mod row;
mod span;
mod tree;

pub use kept::Compiled;
pub use products::compile;
pub use tree::compile_tree;
pub use uvl_functions::{Names, PlaceRefusal, VarMap, enough_is_enough, models_give_products};
pub use uvl_rule::compile_rule;
