//! One table of reduced ordered binary decision diagrams (Bryant 1986), shared by all who hold handles of it.
#![tactic(auto)]

mod handle;
mod laws;
mod refusal;
mod room;
mod row;
mod slots;
mod store;

pub use handle::Handle;
pub use laws::{
    changes_compose, cofactors_add_nothing, cofactors_compose, last_variable_adds_nothing,
    more_is_not_smaller, reached_is_size, refusals_compose, short_budgets, size_is_bounded,
    values_tell_levels,
};
pub use refusal::{AddRefusal, OutOfMemory, Refusal};
pub use row::{NodeNo, Row, Var};
pub use store::{LEAST_BUDGET, MAX_VARIABLES, MOST_BUDGET, Store};
