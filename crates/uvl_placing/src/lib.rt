//! What a set of files says: the feature tree of each file with the imported trees in their places, and the constraints.
#![tactic(auto)]

mod laws;

pub use laws::{files_are_read_in_order, one_file_is_placed_twice};
