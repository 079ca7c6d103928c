//! Group cardinalities as decision diagrams: of some variables at least so many and at most so many are true.
#![tactic(auto)]

mod cardinality;
mod levels;
mod states;

pub use cardinality::count;
