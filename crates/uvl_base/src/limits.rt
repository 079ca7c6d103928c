//! The limits of what is read: files, models, rules, numbers and scripts. They are this project's own.

/// The most bytes of one file.
pub const MOST_FILE_BYTES: usize = 8_388_608;

/// The most bytes of all files of a model.
pub const MOST_SET_BYTES: usize = 16_777_216;

/// The most files of a model.
pub const MOST_FILES: usize = 256;

/// How deep imports nest at most. The main file is at 0.
pub const MOST_IMPORT_DEPTH: usize = 16;

/// The most features of a model.
pub const MOST_FEATURES: usize = 2_048;

/// How deep features nest at most. The root is at 1.
pub const MOST_DEPTH: usize = 64;

/// How deep brackets and `!` nest at most in a line.
pub const MOST_NESTING: usize = 128;

/// The most nodes of one rule: its literals, references, sums and operators.
pub const MOST_RULE_NODES: usize = 8_192;

/// The most rules of a model.
pub const MOST_RULES: usize = 65_536;

/// The most nodes of all rules of a model.
pub const MOST_NODES: usize = 4_194_304;

/// The most digits of a number in front of its point.
pub const MOST_WHOLE_DIGITS: usize = 12;

/// The most digits of a number behind its point.
pub const MOST_DECIMALS: usize = 6;

/// The most bytes of a line of a script, without its line end.
pub const MOST_LINE_BYTES: usize = 65_536;

/// The most bytes of a script.
pub const MOST_SCRIPT_BYTES: usize = 67_108_864;
