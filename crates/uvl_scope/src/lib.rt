//! What is wrong in a set of files, and which names are in scope in each of them.
#![tactic(auto)]

mod attributes;
mod checking;
mod factors;
mod fault;
mod imports;
mod keys;
mod law;
mod limits;
mod names;
mod numbers;
mod references;
mod rule_faults;
mod rule_walk;
mod rules;
mod scope;
mod spelling;
mod tally;
mod walk;

pub use attributes::AttributeLists;
pub use checking::check;
pub use fault::ScopeFault;
pub use law::each_set_has_one_answer;
pub use limits::{MOST_NODES, MOST_RULES};
pub use names::NameIndex;
pub use numbers::have_numbers;
pub use scope::{Scope, Scopes};
pub use spelling::push_dotted;
