//! What decisions on the features of a family of sets mean: which values they leave and force, and why.
#![tactic(auto)]

mod laws;

pub use laws::{
    an_explanation_is_least, decisions_tell_sets, one_value_stays, sessions_keep_a_set,
};
