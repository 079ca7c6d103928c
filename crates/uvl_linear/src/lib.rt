//! The numbers of a rule as linear forms over the features of a model.
#![tactic(auto)]

mod form;
mod plain;
mod sides;
mod value;

pub use form::LinearForm;
pub use sides::difference;
