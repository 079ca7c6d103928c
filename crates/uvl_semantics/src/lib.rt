//! What a feature model means: feature trees, constraints by full names, and which sets of features are products.
#![tactic(auto)]

mod laws;

pub use laws::{products_are_sets, sublists_tell_sets, void_families_have_no_set};
