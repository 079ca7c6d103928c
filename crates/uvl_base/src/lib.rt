//! What all crates of the text side speak of: places, texts, names, and the faults of a model.
#![tactic(auto)]

mod fault;
mod fixed;
mod identifier;
mod limits;
mod name;
mod place;
mod text;
mod word;

pub use fault::{FaultKind, ModelFault};
pub use fixed::{Fixed, NumberFault};
pub use identifier::{begins_identifier, continues_identifier};
pub use limits::{
    MOST_DECIMALS, MOST_DEPTH, MOST_FEATURES, MOST_FILE_BYTES, MOST_FILES, MOST_IMPORT_DEPTH,
    MOST_LINE_BYTES, MOST_NESTING, MOST_NODES, MOST_RULE_NODES, MOST_RULES, MOST_SCRIPT_BYTES,
    MOST_SET_BYTES, MOST_WHOLE_DIGITS,
};
pub use name::{Name, NameFault, is_name};
pub use place::Place;
pub use text::{OutOfMemory, Text};
pub use word::{Word, is_reserved, word_of};
