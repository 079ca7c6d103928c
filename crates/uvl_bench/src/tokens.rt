//! The reading of a text.
ghost use Rattle.std.specs.Prelude.{IfSome};
ghost use Rattle.uvl_lexer.specs.TokenList.{IsTokenList};

use std::alloc::Global;
use uvl_base::MOST_FILE_BYTES;
use uvl_lexer::{Token, lex};
use uvl_parser::parse;

/// How far a text is read.
#[derive(Clone, Copy, Debug, PartialEq, Eq)]
pub(crate) enum Reading {
    /// Its bytes are validated as UTF-8, and counted.
    Validate,
    /// It is cut into tokens, which are counted.
    Lex,
    /// Its tokens are parsed too, and counted where they are a file.
    Parse,
}

impl Reading {
    pub(crate) fn named(word: &str) -> Option<Reading> {
        match word {
            "validate" => Some(Reading::Validate),
            "lex" => Some(Reading::Lex),
            "parse" => Some(Reading::Parse),
            _ => None,
        }
    }
}

/// How many bytes or tokens were read in all rounds.
pub(crate) fn count_tokens(alloc: Global, text: &str, reading: Reading, rounds: u32) -> u64 {
    let mut count = 0u64;
    for _round in 0..rounds {
        let read = match reading {
            Reading::Validate => bytes_in(text.as_bytes()),
            Reading::Lex => tokens_in(alloc, text, false),
            Reading::Parse => tokens_in(alloc, text, true),
        };
        count = count.saturating_add(read as u64);
    }
    count
}

fn bytes_in(bytes: &[u8]) -> usize {
    match str::from_utf8(bytes) {
        Ok(text) => text.len(),
        Err(_) => 0,
    }
}

/// How many tokens the text has; if it is to be parsed, none where they are no file.
fn tokens_in(alloc: Global, text: &str, parses: bool) -> usize {
    match tokens_of(alloc, text) {
        Some(tokens) if !parses || parse(alloc, &tokens).is_ok() => tokens.len(),
        _ => 0,
    }
}

/// The tokens of a text, where it has tokens and there is memory.
pub(crate) fn tokens_of(alloc: Global, text: &str) -> Option<Vec<Token>>
    ensures { IfSome result (λ tokens. IsTokenList tokens.items) }
{
    if text.len() > MOST_FILE_BYTES {
        return None;
    }
    lex(alloc, text).ok()
}
