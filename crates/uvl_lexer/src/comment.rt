//! Comments, and the symbol that looks like their front.
ghost use Rattle.std.specs.Prelude.{◌≡◌, ◌+◌, ◌<◌, ◌≤◌, IfSome, length, chars};
ghost use Rattle.uvl_base.specs.Limits.{most_file_bytes};
ghost use Rattle.uvl_lexer.specs.Pieces as spec;

use crate::characters::{begins_with, split_first};
use crate::piece::{Lexeme, PieceKind};
use crate::token::Symbol;

/// What begins with a slash, behind it: a comment, where it is closed, or the symbol.
pub(crate) fn slash_at(rest: &str) -> Option<(PieceKind, usize)>
    requires { length (chars rest.now) < most_file_bytes }
    ensures piece { result ≡ spec.slash_at (chars rest.now) }
    ensures within { IfSome result (λ piece. (1 ≤ piece.1) × (piece.1 ≤ length (chars rest.now) + 1)) }
{
    let Some(parts) = split_first(rest) else {
        return Some((PieceKind::Lexeme(Lexeme::Symbol(Symbol::Slash)), 1));
    };
    match parts.0 {
        '/' => Some((PieceKind::Comment, line_len(parts.1) + 2)),
        '*' => block_at(parts.1),
        _ => Some((PieceKind::Lexeme(Lexeme::Symbol(Symbol::Slash)), 1)),
    }
}

/// A comment that may go over lines, behind its front.
fn block_at(rest: &str) -> Option<(PieceKind, usize)>
    requires { length (chars rest.now) < most_file_bytes }
    ensures piece { result ≡ spec.block_at (chars rest.now) }
    ensures within { IfSome result (λ piece. (1 ≤ piece.1) × (piece.1 ≤ length (chars rest.now) + 2)) }
{
    match through_close(rest) {
        Some(count) => Some((PieceKind::Comment, count + 2)),
        None => None,
    }
}

/// How many characters stand in front of the end of the line.
fn line_len(text: &str) -> usize
    requires { length (chars text.now) < most_file_bytes }
    ensures count { result ≡ spec.line_len (chars text.now) }
    ensures within { result ≤ length (chars text.now) }
{
    let mut count = 0;
    let mut rest = text;
    while let Some(parts) = split_first(rest) {
        if ends_line(parts.0, parts.1) {
            return count;
        }
        rest = parts.1;
        count += 1;
    }
    count
}

/// Whether a line ends at a character.
pub(crate) fn ends_line(first: char, rest: &str) -> bool
    ensures { result ≡ spec.ends_line first (chars rest.now) }
{
    first == '\n' || (first == '\r' && begins_with(rest, '\n'))
}

/// How many characters there are up to and with the next `*/`.
fn through_close(text: &str) -> Option<usize>
    requires { length (chars text.now) < most_file_bytes }
    ensures count { result ≡ spec.through_close (chars text.now) }
    ensures within { IfSome result (λ count. count ≤ length (chars text.now)) }
{
    let mut count = 0;
    let mut rest = text;
    while let Some(parts) = split_first(rest) {
        if parts.0 == '*' && begins_with(parts.1, '/') {
            return Some(count + 2);
        }
        rest = parts.1;
        count += 1;
    }
    None
}
