//! The pieces of a text: tokens' spellings, spaces, tabs, line breaks and comments.
ghost use Rattle.std.specs.Prelude.{◌≡◌, ◌+◌, ◌<◌, ◌≤◌, IfSome, length, chars};
ghost use Rattle.uvl_base.specs.Limits.{most_file_bytes};
ghost use Rattle.uvl_lexer.specs.Pieces as spec;

use crate::characters::{CharacterClass, begins_with, count_while, split_at_count, split_first};
use crate::comment::slash_at;
use crate::symbol::symbol_at;
use crate::token::Symbol;
use uvl_base::begins_identifier;

/// What a piece of the text is.
#[derive(Clone, Copy, Debug, PartialEq, Eq)]
pub(crate) enum PieceKind {
    Space,
    Tab,
    /// LF, or CR LF.
    Break,
    Comment,
    Lexeme(Lexeme),
}

/// What kind of token a piece spells.
#[derive(Clone, Copy, Debug, PartialEq, Eq)]
pub(crate) enum Lexeme {
    /// An identifier, which may be a reserved word.
    Identifier,
    /// A name in double quotes.
    Quoted,
    Number,
    /// A text in single quotes.
    Text,
    Symbol(Symbol),
}

/// What kind of piece a character may begin.
#[derive(Clone, Copy, Debug, PartialEq, Eq)]
pub(crate) enum Opening {
    Space,
    Tab,
    LineFeed,
    CarriageReturn,
    Slash,
    Quote,
    Apostrophe,
    Point,
    Digit,
    Letter,
    Sign,
}

/// The longest piece that begins with the first character of the text, and how many characters it
/// has. There is none where the text is empty, and where its first character begins no piece.
pub(crate) fn piece_at(text: &str) -> Option<(PieceKind, usize)>
    requires { length (chars text.now) ≤ most_file_bytes }
    ensures piece { result ≡ spec.piece_at (chars text.now) }
    ensures within { IfSome result (λ piece. (1 ≤ piece.1) × (piece.1 ≤ length (chars text.now))) }
{
    let Some(parts) = split_first(text) else {
        return None;
    };
    piece_behind(opening_of(parts.0), parts.0, parts.1)
}

fn piece_behind(opening: Opening, first: char, rest: &str) -> Option<(PieceKind, usize)>
    requires { length (chars rest.now) < most_file_bytes }
    ensures piece { result ≡ spec.piece_behind opening first (chars rest.now) }
    ensures within { IfSome result (λ piece. (1 ≤ piece.1) × (piece.1 ≤ length (chars rest.now) + 1)) }
{
    match opening {
        Opening::Space => Some((PieceKind::Space, 1)),
        Opening::Tab => Some((PieceKind::Tab, 1)),
        Opening::LineFeed => Some((PieceKind::Break, 1)),
        Opening::CarriageReturn => {
            if begins_with(rest, '\n') {
                Some((PieceKind::Break, 2))
            } else {
                None
            }
        }
        Opening::Slash => slash_at(rest),
        Opening::Quote => quoted_at(rest),
        Opening::Apostrophe => text_at(rest),
        Opening::Point => Some(point_at(rest)),
        Opening::Digit => Some(number_at(rest)),
        Opening::Letter => Some(identifier_at(rest)),
        Opening::Sign => {
            let (symbol, count) = symbol_at(first, rest)?;
            Some((PieceKind::Lexeme(Lexeme::Symbol(symbol)), count))
        }
    }
}

fn opening_of(first: char) -> Opening
    ensures { result ≡ spec.opening_of first }
{
    match first {
        ' ' => Opening::Space,
        '\t' => Opening::Tab,
        '\n' => Opening::LineFeed,
        '\r' => Opening::CarriageReturn,
        '/' => Opening::Slash,
        '"' => Opening::Quote,
        '\'' => Opening::Apostrophe,
        '.' => Opening::Point,
        _ => opening_of_other(first),
    }
}

fn opening_of_other(first: char) -> Opening
    ensures { result ≡ spec.opening_of_other first }
{
    if first.is_ascii_digit() {
        Opening::Digit
    } else if begins_identifier(first) {
        Opening::Letter
    } else {
        Opening::Sign
    }
}

/// A quoted name, behind its first quote.
fn quoted_at(rest: &str) -> Option<(PieceKind, usize)>
    requires { length (chars rest.now) < most_file_bytes }
    ensures piece { result ≡ spec.quoted_at (chars rest.now) }
    ensures within { IfSome result (λ piece. (1 ≤ piece.1) × (piece.1 ≤ length (chars rest.now) + 1)) }
{
    let count = count_while(rest, CharacterClass::InQuotes);
    let (_, behind) = split_at_count(rest, count);
    if !begins_with(behind, '"') || count == 0 {
        return None;
    }
    Some((PieceKind::Lexeme(Lexeme::Quoted), count + 2))
}

/// A text, behind its first quote.
fn text_at(rest: &str) -> Option<(PieceKind, usize)>
    requires { length (chars rest.now) < most_file_bytes }
    ensures piece { result ≡ spec.text_at (chars rest.now) }
    ensures within { IfSome result (λ piece. (1 ≤ piece.1) × (piece.1 ≤ length (chars rest.now) + 1)) }
{
    let count = count_while(rest, CharacterClass::InText);
    let (_, behind) = split_at_count(rest, count);
    if !begins_with(behind, '\'') {
        return None;
    }
    Some((PieceKind::Lexeme(Lexeme::Text), count + 2))
}

/// What begins with a point, behind it.
fn point_at(rest: &str) -> (PieceKind, usize)
    requires { length (chars rest.now) < most_file_bytes }
    ensures piece { result ≡ spec.point_at (chars rest.now) }
    ensures within { (1 ≤ result.1) × (result.1 ≤ length (chars rest.now) + 1) }
{
    if begins_with(rest, '.') {
        return (PieceKind::Lexeme(Lexeme::Symbol(Symbol::Dots)), 2);
    }
    let digits = count_while(rest, CharacterClass::Digit);
    if digits == 0 {
        (PieceKind::Lexeme(Lexeme::Symbol(Symbol::Dot)), 1)
    } else {
        (PieceKind::Lexeme(Lexeme::Number), digits + 1)
    }
}

/// A number, behind its first digit.
fn number_at(rest: &str) -> (PieceKind, usize)
    requires { length (chars rest.now) < most_file_bytes }
    ensures piece { result ≡ spec.number_at (chars rest.now) }
    ensures within { (1 ≤ result.1) × (result.1 ≤ length (chars rest.now) + 1) }
{
    let digits = count_while(rest, CharacterClass::Digit);
    let (_, behind) = split_at_count(rest, digits);
    let count = decimals_len(behind) + digits + 1;
    (PieceKind::Lexeme(Lexeme::Number), count)
}

/// How many characters a point and the digits behind it have.
fn decimals_len(text: &str) -> usize
    requires { length (chars text.now) < most_file_bytes }
    ensures count { result ≡ spec.decimals_len (chars text.now) }
    ensures within { result ≤ length (chars text.now) }
{
    let Some(parts) = split_first(text) else {
        return 0;
    };
    if parts.0 != '.' {
        return 0;
    }
    let digits = count_while(parts.1, CharacterClass::Digit);
    if digits == 0 { 0 } else { digits + 1 }
}

/// An identifier, behind its first character.
fn identifier_at(rest: &str) -> (PieceKind, usize)
    requires { length (chars rest.now) < most_file_bytes }
    ensures piece { result ≡ spec.identifier_at (chars rest.now) }
    ensures within { (1 ≤ result.1) × (result.1 ≤ length (chars rest.now) + 1) }
{
    let others = count_while(rest, CharacterClass::InIdentifier);
    (PieceKind::Lexeme(Lexeme::Identifier), others + 1)
}
