//! Rules and their nodes, as the tokens in front of a place tell them.
ghost use Rattle.std.specs.Prelude.{◌≡◌, reverse};
ghost use Rattle.uvl_profile.specs.Rules as spec;

use crate::kinds::is_operator;
use crate::line::{is_behind_sign, is_behind_sum, is_behind_symbol};
use uvl_lexer::{Symbol, Token, TokenKind, Word};

/// Whether a token of a rule is where a node stands.
pub(crate) fn is_node(front: &[Token], kind: &TokenKind) -> bool
    ensures { result ≡ spec.is_node (reverse front.now) kind.now }
{
    match kind {
        TokenKind::Name { .. } => !is_behind_symbol(front, Symbol::Dot) && !is_behind_sum(front),
        TokenKind::Number { .. } => !is_behind_sign(front),
        TokenKind::Word(_) => kind.is_word(Word::Sum),
        TokenKind::Symbol(_) => is_operator(kind),
        _ => false,
    }
}
