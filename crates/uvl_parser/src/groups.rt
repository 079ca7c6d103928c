//! The fronts of groups:
//! `kind = "mandatory" | "optional" | "alternative" | "or" | "[" whole "]" | "[" whole ".." (whole | "*") "]"`.
ghost use Rattle.std.specs.Prelude.{◌≡◌, true, Ok, Err, Some, None};
ghost use Rattle.uvl_grammar.specs.Tokens.{whole_of, whole_value};
ghost use Rattle.uvl_grammar.specs.steps.Reading.{accept};
ghost use Rattle.uvl_parser.specs.steps.Gives.{Gives};
ghost use Rattle.uvl_grammar.specs.steps.Groups.{kind_of, upper, range_from, range, group_front};

use crate::reading::Stop;
use crate::tokens::{begins_with, token};
use uvl_ast::GroupKind;
use uvl_base::{Fixed, Place};
use uvl_lexer::{Symbol, Token, TokenKind, Word};

/// What is read of the front of a group: its kind, and where its first token stands.
pub(crate) type GroupFront = (GroupKind, Place);

/// Reads the front of a group.
#[tactic(auto, unfolding(uvl_grammar::specs::steps::Groups::group_front, uvl_grammar::specs::steps::Reading::choose))]
pub(crate) fn group_front(tokens: &[Token]) -> Result<(GroupFront, &[Token]), Stop>
    ensures { Gives (λ r. (r.0, r.1.now)) result (group_front tokens.now) }
{
    if begins_with(tokens, Symbol::LeftBracket) {
        range(tokens)
    } else {
        kind_word(tokens)
    }
}

/// The kind of group that a word says.
fn kind_of(kind: &TokenKind) -> Option<GroupKind>
    ensures { result ≡ kind_of kind.now }
{
    match kind {
        TokenKind::Word(Word::Mandatory) => Some(GroupKind::Mandatory),
        TokenKind::Word(Word::Optional) => Some(GroupKind::Optional),
        TokenKind::Word(Word::Alternative) => Some(GroupKind::Alternative),
        TokenKind::Word(Word::Or) => Some(GroupKind::Or),
        _ => None,
    }
}

/// Reads a word that says a kind of group.
#[tactic(auto, unfolding(uvl_grammar::specs::steps::Reading::accept))]
fn kind_word(tokens: &[Token]) -> Result<(GroupFront, &[Token]), Stop>
    ensures { Gives (λ r. (r.0, r.1.now)) result (accept kind_of tokens.now) }
{
    let Some((token, rest)) = tokens.split_first() else {
        return Err(Stop::Stuck { left: 0 });
    };
    match kind_of(&token.kind) {
        Some(kind) => Ok(((kind, token.place), rest)),
        None => Err(Stop::Stuck { left: tokens.len() }),
    }
}

/// Reads a range in brackets.
#[tactic(auto, unfolding(uvl_grammar::specs::steps::Groups::range, uvl_grammar::specs::steps::Reading::bind, uvl_grammar::specs::steps::Reading::done))]
fn range(tokens: &[Token]) -> Result<(GroupFront, &[Token]), Stop>
    ensures { Gives (λ r. (r.0, r.1.now)) result (range tokens.now) }
{
    let (place, rest) = token(tokens, Symbol::LeftBracket)?;
    let (lo, _, rest) = whole(rest)?;
    let (kind, rest) = range_from(lo, rest)?;
    let (_, rest) = token(rest, Symbol::RightBracket)?;
    Ok(((kind, place), rest))
}

/// Reads what is behind the lower bound of a range: dots and an upper bound, or nothing.
#[tactic(auto, unfolding(uvl_grammar::specs::steps::Groups::range_from, uvl_grammar::specs::steps::Reading::choose, uvl_grammar::specs::steps::Reading::bind, uvl_grammar::specs::steps::Reading::done))]
fn range_from(lo: u64, tokens: &[Token]) -> Result<(GroupKind, &[Token]), Stop>
    ensures { Gives (λ r. (r.0, r.1.now)) result (range_from lo tokens.now) }
{
    if begins_with(tokens, Symbol::Dots) {
        let (_, rest) = token(tokens, Symbol::Dots)?;
        upper(lo, rest)
    } else {
        Ok((GroupKind::Range { lo, hi: Some(lo) }, tokens))
    }
}

/// Reads an upper bound: a number, or a star where there is none.
#[tactic(auto, unfolding(uvl_grammar::specs::steps::Groups::upper, uvl_grammar::specs::steps::Reading::choose, uvl_grammar::specs::steps::Reading::bind, uvl_grammar::specs::steps::Reading::done))]
fn upper(lo: u64, tokens: &[Token]) -> Result<(GroupKind, &[Token]), Stop>
    ensures { Gives (λ r. (r.0, r.1.now)) result (upper lo tokens.now) }
{
    if begins_with(tokens, Symbol::Star) {
        let (_, rest) = token(tokens, Symbol::Star)?;
        Ok((GroupKind::Range { lo, hi: None }, rest))
    } else {
        let (hi, _, rest) = whole(tokens)?;
        let hi = Some(hi);
        Ok((GroupKind::Range { lo, hi }, rest))
    }
}

/// Reads a number without a point.
#[tactic(auto, unfolding(uvl_grammar::specs::steps::Reading::accept))]
fn whole(tokens: &[Token]) -> Result<(u64, Place, &[Token]), Stop>
    ensures { Gives (λ r. ((r.0, r.1), r.2.now)) result (accept whole_of tokens.now) }
{
    let Some((token, rest)) = tokens.split_first() else {
        return Err(Stop::Stuck { left: 0 });
    };
    match whole_of(&token.kind) {
        Some(number) => Ok((number, token.place, rest)),
        None => Err(Stop::Stuck { left: tokens.len() }),
    }
}

/// The number that a token without a point is.
fn whole_of(kind: &TokenKind) -> Option<u64>
    ensures { result ≡ whole_of kind.now }
{
    match kind {
        TokenKind::Number { value, whole: true } => whole_value(*value),
        _ => None,
    }
}

/// The number of units of a number that isn't negative.
fn whole_value(value: Fixed) -> Option<u64>
    ensures { result ≡ whole_value true value }
{
    match u64::try_from(value.millionths()) {
        Ok(millionths) => Some(millionths / 1_000_000),
        Err(_) => None,
    }
}
