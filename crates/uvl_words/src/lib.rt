//! The words of the command line, and what they ask for.
#![tactic(auto)]

mod budgets;
mod command_line;
mod laws;

pub use budgets::{DEFAULT_BUDGET, LEAST_BUDGET, MOST_BUDGET};
pub use command_line::{Request, USAGE_LINE, read_words};
pub use laws::the_command_line_has_these_forms;
