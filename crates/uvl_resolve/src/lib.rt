//! From a set of files to the model that it says.
#![tactic(auto)]

mod attributes;
mod bounds;
mod fault;
mod features;
mod laws;
mod name;
mod number;
mod placements;
mod qualifiers;
mod resolving;
mod rows;
mod rule;
mod rules;
mod walk;

pub use fault::ResolveFault;
pub use laws::flat_keeps_products;
pub use resolving::{resolve, resolve_with_numbers};
