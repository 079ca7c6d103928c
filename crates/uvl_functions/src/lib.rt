//! A model's features as variables of a table of decision diagrams, and what the model says as functions of these.
#![tactic(auto)]

mod laws;
mod literals;
mod naming;
mod variables;

pub use laws::{enough_is_enough, models_give_products};
pub use literals::literal;
pub use naming::{Names, PlaceRefusal};
pub use variables::VarMap;
