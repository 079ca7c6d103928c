//! What an operand of numbers begins with.
ghost use Rattle.std.specs.Prelude.{◌≡◌};
ghost use Rattle.uvl_parser.specs.steps.Openings as spec;

use uvl_base::Fixed;
use uvl_lexer::{Symbol, TokenKind, Word};

/// What the first token of an operand of numbers says of it.
#[derive(Clone, Copy, Debug, PartialEq, Eq)]
pub(crate) enum Opening {
    /// It stands in parentheses.
    Parenthesis,
    /// It is a number with `-` in front.
    Minus,
    /// It is the sum of an attribute.
    Sum,
    /// It is this number.
    Number(Fixed),
    /// It is a reference, or nothing.
    Other,
}

/// What a token says of the operand that it begins.
pub(crate) fn opening_of(kind: &TokenKind) -> Opening
    ensures { result ≡ spec.opening_of kind.now }
{
    match kind {
        TokenKind::Symbol(symbol) => opening_of_symbol(*symbol),
        TokenKind::Word(word) => opening_of_word(*word),
        TokenKind::Number { value, .. } => Opening::Number(*value),
        _ => Opening::Other,
    }
}

fn opening_of_symbol(symbol: Symbol) -> Opening
    ensures { result ≡ spec.opening_of_symbol symbol }
{
    match symbol {
        Symbol::LeftParen => Opening::Parenthesis,
        Symbol::Minus => Opening::Minus,
        _ => Opening::Other,
    }
}

fn opening_of_word(word: Word) -> Opening
    ensures { result ≡ spec.opening_of_word word }
{
    match word {
        Word::Sum => Opening::Sum,
        _ => Opening::Other,
    }
}
