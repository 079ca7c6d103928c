//! Characters to tokens: what the tokens of a UVL text are, and a lexer that answers exactly them.
#![tactic(auto)]

mod brackets;
mod characters;
mod comment;
mod fault;
mod indentations;
mod kind;
mod law;
mod lexer;
mod piece;
mod position;
mod reader;
mod spelling;
mod symbol;
mod token;

pub use fault::LexFault;
pub use law::{every_text_is_cut_once, every_text_is_read_once, tokens_are_a_list};
pub use lexer::lex;
pub use token::{Symbol, Token, TokenKind};
pub use uvl_base::Word;
