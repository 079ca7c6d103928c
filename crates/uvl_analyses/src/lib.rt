//! Analyses of feature models: void models, dead, core and false-optional features.
#![tactic(auto)]

mod listed;
mod offered;
mod optional;
mod products;
mod refusal;

pub use offered::{core, dead};
pub use optional::false_optional;
pub use products::void;
pub use refusal::AnalysisRefusal;
