//! From a rule to its diagram: the function of the variables that says whether the rule holds.
#![tactic(auto)]

mod comparison;
mod connective;
mod leaf;
mod listed;
mod quick;
mod run;
mod spine;
mod whole;

pub use comparison::compile_comparison;
pub use listed::listed_rule;
pub use quick::quick_rule;
pub use whole::compile_rule;
