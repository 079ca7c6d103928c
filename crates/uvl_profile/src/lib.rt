//! Where the tokens of a file leave this project's profile of UVL: the faults with a name of their own,
//! which are constructs that it doesn't take and limits, and the first token at which one is met.
#![tactic(auto)]

mod candidate;
mod kinds;
mod line;
mod nesting;
mod rule;
mod scan;
mod section;

pub use candidate::{Candidate, Met};
pub use scan::first_met;
pub use section::{Section, SectionPart};
