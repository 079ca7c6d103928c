//! The limits of a file with all that it places. They are this project's own.

/// The most rules.
pub const MOST_RULES: usize = 65_536;

/// The most nodes of all rules together.
pub const MOST_NODES: usize = 4_194_304;
