//! The symbols, each the longest that begins at its place.
ghost use Rattle.std.specs.Prelude.{◌≡◌, ◌+◌, ◌≤◌, IfSome, length, chars};
ghost use Rattle.uvl_lexer.specs.Pieces as spec;

use crate::characters::{begins_with, split_first};
use crate::token::Symbol;

/// The longest symbol that begins with a character, but for those that begin with `.` or `/`, and
/// how many characters it has.
pub(crate) fn symbol_at(first: char, rest: &str) -> Option<(Symbol, usize)>
    ensures symbol { result ≡ spec.symbol_at first (chars rest.now) }
    ensures within { IfSome result (λ symbol. (1 ≤ symbol.1) × (symbol.1 ≤ length (chars rest.now) + 1)) }
{
    match plain_symbol(first) {
        Some(symbol) => Some((symbol, 1)),
        None => operator_at(first, rest),
    }
}

/// A symbol that begins no longer one.
fn plain_symbol(first: char) -> Option<Symbol>
    ensures { result ≡ spec.plain_symbol first }
{
    match first {
        '(' => Some(Symbol::LeftParen),
        ')' => Some(Symbol::RightParen),
        '[' => Some(Symbol::LeftBracket),
        ']' => Some(Symbol::RightBracket),
        '{' => Some(Symbol::LeftBrace),
        '}' => Some(Symbol::RightBrace),
        ',' => Some(Symbol::Comma),
        '&' => Some(Symbol::Amp),
        '|' => Some(Symbol::Bar),
        '+' => Some(Symbol::Plus),
        '-' => Some(Symbol::Minus),
        '*' => Some(Symbol::Star),
        _ => None,
    }
}

/// The longest of the symbols that begin with `!`, `=`, `<` or `>`.
fn operator_at(first: char, rest: &str) -> Option<(Symbol, usize)>
    ensures symbol { result ≡ spec.operator_at first (chars rest.now) }
    ensures within { IfSome result (λ symbol. (1 ≤ symbol.1) × (symbol.1 ≤ length (chars rest.now) + 1)) }
{
    match first {
        '!' => Some(bang_at(rest)),
        '=' => equal_at(rest),
        '<' => Some(less_at(rest)),
        '>' => Some(greater_at(rest)),
        _ => None,
    }
}

fn bang_at(rest: &str) -> (Symbol, usize)
    ensures symbol { result ≡ spec.bang_at (chars rest.now) }
    ensures within { (1 ≤ result.1) × (result.1 ≤ length (chars rest.now) + 1) }
{
    if begins_with(rest, '=') {
        (Symbol::Differs, 2)
    } else {
        (Symbol::Bang, 1)
    }
}

fn equal_at(rest: &str) -> Option<(Symbol, usize)>
    ensures symbol { result ≡ spec.equal_at (chars rest.now) }
    ensures within { IfSome result (λ symbol. (1 ≤ symbol.1) × (symbol.1 ≤ length (chars rest.now) + 1)) }
{
    if begins_with(rest, '=') {
        Some((Symbol::Equal, 2))
    } else if begins_with(rest, '>') {
        Some((Symbol::Implies, 2))
    } else {
        None
    }
}

fn less_at(rest: &str) -> (Symbol, usize)
    ensures symbol { result ≡ spec.less_at (chars rest.now) }
    ensures within { (1 ≤ result.1) × (result.1 ≤ length (chars rest.now) + 1) }
{
    let Some(parts) = split_first(rest) else {
        return (Symbol::Less, 1);
    };
    if parts.0 != '=' {
        (Symbol::Less, 1)
    } else if begins_with(parts.1, '>') {
        (Symbol::Iff, 3)
    } else {
        (Symbol::AtMost, 2)
    }
}

fn greater_at(rest: &str) -> (Symbol, usize)
    ensures symbol { result ≡ spec.greater_at (chars rest.now) }
    ensures within { (1 ≤ result.1) × (result.1 ≤ length (chars rest.now) + 1) }
{
    if begins_with(rest, '=') {
        (Symbol::AtLeast, 2)
    } else {
        (Symbol::Greater, 1)
    }
}
