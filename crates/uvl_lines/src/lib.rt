//! The lines of a script, answered as they come by what keeps a state from line to line.
#![tactic(auto)]

mod answerer;
mod ending;
mod first_line;
mod laws;
mod reply;
mod script;

pub use answerer::{AnswerFault, Answerer};
pub use ending::Ending;
pub use laws::every_script_has_one_cut;
pub use reply::push_refusal;
pub use script::answer_lines;
