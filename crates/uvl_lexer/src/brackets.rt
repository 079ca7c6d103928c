//! The brackets that stand open.
ghost use Rattle.std.specs.Prelude.{◌≡◌, ◌∷◌, [], OnOk, drop, length, ◌==◌};
ghost use Rattle.uvl_lexer.specs.Brackets as spec;

use crate::token::Symbol;
use std::alloc::{AllocError, Global};
use std::marker::Model;

/// A kind of bracket.
#[derive(Clone, Copy, Debug, PartialEq, Eq)]
pub(crate) enum Bracket {
    Paren,
    Square,
    Brace,
}

/// What a symbol does to the open brackets.
#[derive(Clone, Copy, Debug, PartialEq, Eq)]
pub(crate) enum Role {
    Opens(Bracket),
    Closes(Bracket),
    Neither,
}

/// The brackets that stand open. Contracts see them as a list, the innermost first.
#[derive(Debug, Drop)]
pub(crate) struct Brackets {
    brackets: Vec<Bracket>,
}

impl Model for Brackets {
    ghost use Rattle.std.specs.Prelude.{List, reverse};
    ghost use Rattle.uvl_lexer.specs.declared.brackets.Bracket.{Bracket};

    ghost Value = { List Bracket };

    ghost view = { λ b. reverse b.brackets.items };
}

impl Brackets {
    pub(crate) fn new(alloc: Global) -> Brackets
        ensures { result ≡ [] }
    {
        Brackets {
            brackets: Vec::new(alloc),
        }
    }

    pub(crate) fn is_empty(&self) -> bool
        ensures { result ≡ (length self.now == 0) }
    {
        self.brackets.is_empty()
    }

    /// Whether a closing bracket would close the innermost open one.
    pub(crate) fn is_innermost(&self, bracket: Bracket) -> bool
        ensures { result ≡ spec.is_innermost bracket self.now }
    {
        match self.brackets.as_slice().split_last() {
            Some((innermost, _)) => is_same(bracket, *innermost),
            None => false,
        }
    }

    pub(crate) fn open(&mut self, bracket: Bracket) -> Result<(), AllocError>
        ensures { OnOk result (self.new ≡ bracket ∷ self.old) }
    {
        self.brackets.push(bracket)?;
        Ok(())
    }

    /// Closes the innermost, if there is one.
    pub(crate) fn close(&mut self)
        ensures { self.new ≡ drop 1 self.old }
    {
        let _ = self.brackets.pop();
    }
}

/// What a symbol does to the open brackets.
pub(crate) fn role_of(symbol: Symbol) -> Role
    ensures { result ≡ spec.role_of symbol }
{
    match symbol {
        Symbol::LeftParen => Role::Opens(Bracket::Paren),
        Symbol::LeftBracket => Role::Opens(Bracket::Square),
        Symbol::LeftBrace => Role::Opens(Bracket::Brace),
        Symbol::RightParen => Role::Closes(Bracket::Paren),
        Symbol::RightBracket => Role::Closes(Bracket::Square),
        Symbol::RightBrace => Role::Closes(Bracket::Brace),
        Symbol::Comma
        | Symbol::Dot
        | Symbol::Dots
        | Symbol::Bang
        | Symbol::Amp
        | Symbol::Bar
        | Symbol::Implies
        | Symbol::Iff
        | Symbol::Equal
        | Symbol::Differs
        | Symbol::Less
        | Symbol::AtMost
        | Symbol::Greater
        | Symbol::AtLeast
        | Symbol::Plus
        | Symbol::Minus
        | Symbol::Star
        | Symbol::Slash => Role::Neither,
    }
}

fn is_same(left: Bracket, right: Bracket) -> bool
    ensures { result ≡ spec.same_bracket left right }
{
    match (left, right) {
        (Bracket::Paren, Bracket::Paren) => true,
        (Bracket::Square, Bracket::Square) => true,
        (Bracket::Brace, Bracket::Brace) => true,
        _ => false,
    }
}
