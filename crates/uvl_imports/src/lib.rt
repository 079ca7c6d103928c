//! The files of a model: the main file and what it imports, read in the order of the import lines.
#![tactic(auto)]

mod fault;
mod file_set;
mod import_line;
mod law;
mod limits;
mod loader;
mod reading;
mod set_builder;
mod text_index;
mod way;

pub use fault::LoadFault;
pub use file_set::{FileSet, Loaded};
pub use law::{
    all_bytes_are_read_once, all_files_load_or_have_a_fault, loaded_files_are_said,
    loaded_sets_are_import_sets,
};
pub use limits::{MOST_FILES, MOST_IMPORT_DEPTH, MOST_SET_BYTES};
pub use loader::load;
