//! Linear sums over variables, compared with 0, as decision diagrams.
#![tactic(auto)]

mod compile;
mod hold;
mod linear;
mod memo;
mod part;
mod settle;
mod steps;

pub use compile::compile_sum;
pub use linear::{Cmp3, Linear};
