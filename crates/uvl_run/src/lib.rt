//! The top call: the files of a model, and then a script that is answered line by line.
#![tactic(auto)]

mod in_memory;
mod laws;
mod load;
mod products;
mod reply;
mod state;
mod status;
mod top;

pub use in_memory::run_in_memory;
pub use laws::{every_main_file_is_loaded_once, nine_features_are_never_too_many};
pub use status::Status;
pub use top::run;
