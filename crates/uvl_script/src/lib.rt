//! The lines of a script: their words, and the commands that they are.
#![tactic(auto)]

mod command;
mod fault;
mod line;
mod words;

pub use command::{Command, Names};
pub use fault::{LineFault, WordFault};
pub use line::{read_line, split_words};
pub use uvl_base::MOST_LINE_BYTES;
pub use words::every_text_has_its_words;
