//! The limits of a set of files. They are this project's own.

/// The most files of one set.
pub const MOST_FILES: usize = 256;

/// How deep imports nest at most. The main file is at 0.
pub const MOST_IMPORT_DEPTH: usize = 16;

/// The most bytes of all files of one set.
pub const MOST_SET_BYTES: usize = 16_777_216;
