//! Tests of a token's kind.
ghost use Rattle.std.specs.Prelude.{◌≡◌};
ghost use Rattle.uvl_profile.specs.Lines.{is_layout};
ghost use Rattle.uvl_profile.specs.Nesting.{opens_bracket, closes_bracket, ends_operand, deepens};
ghost use Rattle.uvl_profile.specs.Rules.{ends_number, is_operator, ends_rule};
ghost use Rattle.uvl_profile.specs.Met.{is_type, is_function, is_name, is_text};

use uvl_lexer::{Symbol, TokenKind, Word};

/// Whether it stands between lines.
pub(crate) fn is_layout(kind: &TokenKind) -> bool
    ensures { result ≡ is_layout kind.now }
{
    matches!(
        kind,
        TokenKind::Newline | TokenKind::Indent | TokenKind::Dedent
    )
}

pub(crate) fn is_name(kind: &TokenKind) -> bool
    ensures { result ≡ is_name kind.now }
{
    matches!(kind, TokenKind::Name { .. })
}

pub(crate) fn is_text(kind: &TokenKind) -> bool
    ensures { result ≡ is_text kind.now }
{
    matches!(kind, TokenKind::Text(_))
}

/// Whether it is a type of features that is not supported.
pub(crate) fn is_type(kind: &TokenKind) -> bool
    ensures { result ≡ is_type kind.now }
{
    match kind {
        TokenKind::Word(word) => matches!(*word, Word::String | Word::Integer | Word::Real),
        _ => false,
    }
}

/// Whether it is a function that is not supported.
pub(crate) fn is_function(kind: &TokenKind) -> bool
    ensures { result ≡ is_function kind.now }
{
    match kind {
        TokenKind::Word(word) => matches!(*word, Word::Len | Word::Floor | Word::Ceil),
        _ => false,
    }
}

pub(crate) fn opens_bracket(kind: &TokenKind) -> bool
    ensures { result ≡ opens_bracket kind.now }
{
    match kind {
        TokenKind::Symbol(symbol) => matches!(
            *symbol,
            Symbol::LeftParen | Symbol::LeftBracket | Symbol::LeftBrace
        ),
        _ => false,
    }
}

/// Whether what follows is nested deeper by it.
pub(crate) fn deepens(kind: &TokenKind) -> bool
    ensures { result ≡ deepens kind.now }
{
    opens_bracket(kind) || kind.is_symbol(Symbol::Bang)
}

pub(crate) fn closes_bracket(kind: &TokenKind) -> bool
    ensures { result ≡ closes_bracket kind.now }
{
    match kind {
        TokenKind::Symbol(symbol) => matches!(
            *symbol,
            Symbol::RightParen | Symbol::RightBracket | Symbol::RightBrace
        ),
        _ => false,
    }
}

/// Whether it ends the operand of a `!`.
pub(crate) fn ends_operand(kind: &TokenKind) -> bool
    ensures { result ≡ ends_operand kind.now }
{
    match kind {
        TokenKind::Symbol(symbol) => matches!(
            *symbol,
            Symbol::Amp
                | Symbol::Bar
                | Symbol::Implies
                | Symbol::Iff
                | Symbol::Comma
                | Symbol::RightParen
                | Symbol::RightBracket
                | Symbol::RightBrace
        ),
        _ => false,
    }
}

/// Whether an operand of numbers may end with it.
pub(crate) fn ends_number(kind: &TokenKind) -> bool
    ensures { result ≡ ends_number kind.now }
{
    match kind {
        TokenKind::Name { .. } | TokenKind::Number { .. } => true,
        TokenKind::Symbol(symbol) => matches!(*symbol, Symbol::RightParen),
        _ => false,
    }
}

/// Whether it is an operator, or a sign.
pub(crate) fn is_operator(kind: &TokenKind) -> bool
    ensures { result ≡ is_operator kind.now }
{
    match kind {
        TokenKind::Symbol(symbol) => matches!(
            *symbol,
            Symbol::Bang
                | Symbol::Amp
                | Symbol::Bar
                | Symbol::Implies
                | Symbol::Iff
                | Symbol::Equal
                | Symbol::Differs
                | Symbol::Less
                | Symbol::AtMost
                | Symbol::Greater
                | Symbol::AtLeast
                | Symbol::Plus
                | Symbol::Minus
                | Symbol::Star
        ),
        _ => false,
    }
}

/// Whether no rule goes on behind it.
pub(crate) fn ends_rule(kind: &TokenKind) -> bool
    ensures { result ≡ ends_rule kind.now }
{
    match kind {
        TokenKind::Newline | TokenKind::Indent | TokenKind::Dedent => true,
        TokenKind::Symbol(symbol) => matches!(
            *symbol,
            Symbol::Comma | Symbol::RightBracket | Symbol::RightBrace
        ),
        _ => false,
    }
}
