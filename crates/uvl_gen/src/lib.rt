//! Large models from a number, for trying a program on.
#![tactic(auto)]

mod laws;
mod model;

pub use laws::features_have_their_parents;
pub use model::{MOST_GENERATED, generate};
