//! Tests of a token's kind.
use crate::token::{Symbol, TokenKind};
use uvl_base::Word;

impl TokenKind {
    ghost use Rattle.std.specs.Prelude.{◌≡◌};
    ghost use Rattle.uvl_lexer.specs.Kinds as spec;

    /// Whether it is this reserved word.
    pub fn is_word(&self, word: Word) -> bool
        ensures { result ≡ spec.is_word word self.now }
    {
        match self {
            TokenKind::Word(other) => *other as u8 == word as u8,
            _ => false,
        }
    }

    /// Whether it is this symbol.
    pub fn is_symbol(&self, symbol: Symbol) -> bool
        ensures { result ≡ spec.is_symbol symbol self.now }
    {
        match self {
            TokenKind::Symbol(other) => *other as u8 == symbol as u8,
            _ => false,
        }
    }

    /// Whether it ends a line.
    pub fn is_newline(&self) -> bool
        ensures { result ≡ spec.is_newline self.now }
    {
        matches!(self, TokenKind::Newline)
    }

    /// Whether it opens an indentation.
    pub fn is_indent(&self) -> bool
        ensures { result ≡ spec.is_indent self.now }
    {
        matches!(self, TokenKind::Indent)
    }

    /// Whether it closes an indentation.
    pub fn is_dedent(&self) -> bool
        ensures { result ≡ spec.is_dedent self.now }
    {
        matches!(self, TokenKind::Dedent)
    }

    /// Whether it ends the text.
    pub fn is_finish(&self) -> bool
        ensures { result ≡ spec.is_finish self.now }
    {
        matches!(self, TokenKind::Finish)
    }
}
