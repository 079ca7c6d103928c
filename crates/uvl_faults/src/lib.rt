//! The faults with a name of their own, against the grammar: the first token at which one is met, and that
//! those of the limits are met exactly where the spelled file breaks a limit.
#![tactic(auto)]

mod law;
mod named;

pub use law::nodes_are_counted_by_tokens;
pub use named::first_named;
