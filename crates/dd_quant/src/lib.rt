//! Questions about the value of a handle: with a variable fixed or without some, on which variables it depends, whether
//! something makes it true, and what it leaves open.
#![tactic(auto)]

mod choices;
mod dependence;
mod ends;
mod given;
mod literal;
mod marks;
mod memo;
mod noted;
mod offer;
mod possibility;
mod quantification;
mod restriction;
mod walk;

pub use choices::{offers, offers_with};
pub use dependence::support;
pub use literal::Literal;
pub use marks::Marks;
pub use offer::Offer;
pub use possibility::{possible, possible_with};
pub use quantification::exists;
pub use restriction::cofactor;
