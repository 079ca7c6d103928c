//! What the tokens in front of a place end with.
ghost use Rattle.std.specs.Prelude.{◌≡◌, reverse};
ghost use Rattle.uvl_profile.specs.Lines as spec;
ghost use Rattle.uvl_lexer.specs.Kinds.{begins, is_word, is_symbol};
ghost use Rattle.uvl_profile.specs.Rules as rules;
ghost use Rattle.uvl_profile.specs.Met as met;

use crate::kinds::{ends_number, is_layout, is_name};
use uvl_lexer::{Symbol, Token, Word};

/// Whether what follows is first in its line.
#[tactic(auto, using(crate::proofs::Fronts::reverse_last))]
pub(crate) fn begins_line(front: &[Token]) -> bool
    ensures { result ≡ spec.begins_line (reverse front.now) }
{
    match front.split_last() {
        Some((last, _)) => is_layout(&last.kind),
        None => true,
    }
}

/// Whether what follows stands behind this symbol.
#[tactic(auto, using(crate::proofs::Fronts::reverse_last))]
pub(crate) fn is_behind_symbol(front: &[Token], symbol: Symbol) -> bool
    ensures { result ≡ begins (is_symbol symbol) (reverse front.now) }
{
    match front.split_last() {
        Some((last, _)) => last.kind.is_symbol(symbol),
        None => false,
    }
}

/// Whether what follows stands behind this word.
#[tactic(auto, using(crate::proofs::Fronts::reverse_last))]
pub(crate) fn is_behind_word(front: &[Token], word: Word) -> bool
    ensures { result ≡ begins (is_word word) (reverse front.now) }
{
    match front.split_last() {
        Some((last, _)) => last.kind.is_word(word),
        None => false,
    }
}

/// Whether what follows stands behind what an operand of numbers may end with.
#[tactic(auto, using(crate::proofs::Fronts::reverse_last))]
pub(crate) fn is_behind_number(front: &[Token]) -> bool
    ensures { result ≡ begins rules.ends_number (reverse front.now) }
{
    match front.split_last() {
        Some((last, _)) => ends_number(&last.kind),
        None => false,
    }
}

/// Whether what follows stands behind a minus that is a sign.
#[tactic(auto, using(crate::proofs::Fronts::reverse_last))]
pub(crate) fn is_behind_sign(front: &[Token]) -> bool
    ensures { result ≡ rules.behind_sign (reverse front.now) }
{
    match front.split_last() {
        Some((last, rest)) => last.kind.is_symbol(Symbol::Minus) && !is_behind_number(rest),
        None => false,
    }
}

/// Whether what follows stands behind `sum` and `(`.
#[tactic(auto, using(crate::proofs::Fronts::reverse_last))]
pub(crate) fn is_behind_sum(front: &[Token]) -> bool
    ensures { result ≡ rules.behind_sum (reverse front.now) }
{
    match front.split_last() {
        Some((last, rest)) => {
            last.kind.is_symbol(Symbol::LeftParen) && is_behind_word(rest, Word::Sum)
        }
        None => false,
    }
}

/// Whether what follows stands behind `sum`, `(` and a name.
#[tactic(auto, using(crate::proofs::Fronts::reverse_last))]
pub(crate) fn is_behind_sum_of_name(front: &[Token]) -> bool
    ensures { result ≡ met.behind_sum_of_name (reverse front.now) }
{
    match front.split_last() {
        Some((last, rest)) => is_name(&last.kind) && is_behind_sum(rest),
        None => false,
    }
}

/// Whether what follows is where a feature's line has its reference.
#[tactic(auto, using(crate::proofs::Fronts::reverse_last))]
pub(crate) fn names_feature(front: &[Token]) -> bool
    ensures { result ≡ met.names_feature (reverse front.now) }
{
    match front.split_last() {
        Some((last, rest)) => {
            is_layout(&last.kind) || last.kind.is_word(Word::Boolean) && begins_line(rest)
        }
        None => false,
    }
}
