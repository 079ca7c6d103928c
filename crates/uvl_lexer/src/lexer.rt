//! The lexer.
ghost use Rattle.std.specs.Prelude.{◌≡◌, ◌+◌, ◌≤◌, Ok, IfOk, IfErr, IsErr, List, length, chars};
ghost use Rattle.uvl_base.specs.declared.fault.FaultKind.{FaultKind};
ghost use Rattle.uvl_base.specs.declared.place.Place.{Place};
ghost use Rattle.uvl_base.specs.Limits.{most_file_bytes};
ghost use Rattle.uvl_lexer.specs.declared.token.Token.{Token};
ghost use Rattle.uvl_lexer.specs.Layout.{Tokens, Stops, after_mark, front_of};
ghost use Rattle.uvl_lexer.specs.Positions.{IsSound};
ghost use Rattle.uvl_lexer.specs.Reading.{OnFault, IsOutOfMemory};
ghost use Rattle.uvl_lexer.specs.TokenList.{IsTokenList};
ghost use Rattle.uvl_lexer.specs.steps.Reading.{StopsAs};
ghost use Rattle.uvl_lexer.specs.steps.Turns.{read_through};

use crate::characters::{split_at_count, split_first};
use crate::fault::LexFault;
use crate::piece::piece_at;
use crate::position::Position;
use crate::reader::Reader;
use crate::token::Token;
use std::alloc::Global;

/// The tokens of a text of at most 8,388,608 bytes, with its layout tokens: the whole text is cut
/// into tokens, spaces, tabs, line breaks and comments, each the longest that begins at its place.
/// A text that has none is refused with the first place at which it can't be read on and, of the
/// faults there, the one with the lowest number: `BadCharacter`, `BadIndent`, `Unclosed` or
/// `NumberTooWide`. Nothing but want of memory refuses a text that has tokens.
pub fn lex(alloc: Global, text: &str) -> Result<Vec<Token>, LexFault>
    requires { length text.now ≤ most_file_bytes }
    ensures tokens { IfOk result (λ tokens. Tokens (chars text.now) tokens.items) }
    ensures list { IfOk result (λ tokens. IsTokenList tokens.items) }
    ensures stops { IfErr result (λ fault. OnFault fault (λ place kind. Stops (chars text.now) place kind)) }
    ensures never_refused { (tokens : List Token) → Tokens (chars text.now) tokens → IfErr result IsOutOfMemory }
    ensures never_read { (place : Place) (kind : FaultKind) → Stops (chars text.now) place kind → IsErr result }
{
    read_text(alloc, text)
}

/// Reads a text one piece after another.
fn read_text(alloc: Global, text: &str) -> Result<Vec<Token>, LexFault>
    requires { length text.now ≤ most_file_bytes }
    ensures tokens { IfOk result (λ tokens. read_through (chars text.now) ≡ Ok tokens.items) }
    ensures stops { IfErr result (StopsAs (read_through (chars text.now))) }
{
    let (front, behind) = split_mark(text);
    let mut reader = Reader::new(alloc, front);
    let mut rest = behind;
    while let Some(piece) = piece_at(rest) {
        let (spelling, after) = split_at_count(rest, piece.1);
        reader.take(alloc, piece.0, piece.1, spelling)?;
        rest = after;
    }
    reader.end(rest)?;
    Ok(reader.into_tokens())
}

/// The position behind a byte order mark at the front, and what follows it.
fn split_mark(text: &str) -> (Position, &str)
    requires { length text.now ≤ most_file_bytes }
    ensures position { result.0 ≡ front_of (chars text.now) }
    ensures characters { chars result.1.now ≡ after_mark (chars text.now) }
    ensures sound { IsSound result.0 }
    ensures bytes { result.0.byte + length result.1.now ≡ length text.now }
{
    let start = Position::start();
    match split_first(text) {
        Some(parts) => {
            if parts.0 == '\u{feff}' {
                (start.behind_mark(), parts.1)
            } else {
                (start, text)
            }
        }
        None => (start, text),
    }
}
