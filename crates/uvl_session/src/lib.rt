//! Configuration sessions over the products of one model.
#![tactic(auto)]

mod deciding;
mod decision;
mod desk;
mod maintaining;
mod narrowing;
mod opening;
mod refusal;
mod selecting;
mod sessions;
mod stages;

pub use decision::Decision;
pub use desk::Desk;
pub use maintaining::{Maintained, Step};
pub use refusal::DeskRefusal;
pub use sessions::{MOST_SESSIONS, OpenSession, Sessions};
pub use stages::Stages;
