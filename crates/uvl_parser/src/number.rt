//! Numbers.
ghost use Rattle.std.specs.Prelude.{◌≡◌, Ok, Err, neg_ℤ};
ghost use Rattle.uvl_grammar.specs.Tokens.{number_of};
ghost use Rattle.uvl_grammar.specs.steps.Reading.{accept};
ghost use Rattle.uvl_parser.specs.steps.Gives.{Gives};

use crate::reading::Stop;
use uvl_base::{Fixed, Place};
use uvl_lexer::{Token, TokenKind};

/// Reads a number, which has no sign.
#[tactic(auto, unfolding(uvl_grammar::specs::steps::Reading::accept))]
pub(crate) fn number(tokens: &[Token]) -> Result<(&Fixed, Place, &[Token]), Stop>
    ensures { Gives (λ r. ((r.0.now, r.1), r.2.now)) result (accept number_of tokens.now) }
{
    let Some((token, rest)) = tokens.split_first() else {
        return Err(Stop::Stuck { left: 0 });
    };
    match &token.kind {
        TokenKind::Number { value, .. } => Ok((value, token.place, rest)),
        _ => Err(Stop::Stuck { left: tokens.len() }),
    }
}

/// The opposite of a number.
pub(crate) fn negated(value: Fixed) -> Fixed
    ensures { result ≡ neg_ℤ value }
{
    match Fixed::new(-value.millionths()) {
        Some(opposite) => opposite,
        None => unreachable!(),
    }
}
