//! The grammar of UVL files: what lists of tokens spell. Beside its definitions stand readers that look at
//! one token, as functions, with the proof that they read exactly what is spelled.
#![tactic(auto)]

mod entry;
mod law;

pub use entry::Entry;
pub use law::{every_token_list_spells_one_file, spelled_texts_are_quotable};
