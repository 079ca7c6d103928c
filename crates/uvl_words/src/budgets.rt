//! How many nodes the table of diagrams may hold.

/// The least budget.
pub const LEAST_BUDGET: u32 = 16;

/// The largest budget.
pub const MOST_BUDGET: u32 = 16_777_216;

/// The budget where the words don't say one.
pub const DEFAULT_BUDGET: u32 = 1_048_576;

/// The most digits of a budget.
pub(crate) const MOST_BUDGET_DIGITS: usize = 8;
