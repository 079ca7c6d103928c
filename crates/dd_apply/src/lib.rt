//! Operations on decision diagrams of one table, by recursion on their nodes with a cache of results (Bryant 1986).
#![tactic(auto)]

mod kernel;
mod laws;
mod operation;
mod question;
mod results;

pub use kernel::Kernel;
pub use laws::room_keeps_nodes;
pub use results::MOST_RESULTS;
