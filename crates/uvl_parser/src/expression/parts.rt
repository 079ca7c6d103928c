//! The parts of expressions that no expression stands in.
ghost use Rattle.std.specs.Prelude.{◌≡◌, Ok, Err, IfOk};
ghost use Rattle.uvl_ast.specs.declared.expression.Expr.TheVariants as expr;
ghost use Rattle.uvl_parser.specs.steps.Gives.{Gives};
ghost use Rattle.uvl_grammar.specs.steps.Expressions.{negative, total, named};

use crate::number::{negated, number};
use crate::reading::Stop;
use crate::reference::reference;
use crate::tokens::{name, token};
use sqlite_items::Boxed;
use std::alloc::{AllocError, Global};
use uvl_ast::{BinOp, Expr};
use uvl_base::Place;
use uvl_lexer::{Symbol, Token};

/// Reads the number behind a minus.
#[tactic(auto, unfolding(uvl_grammar::specs::steps::Expressions::negative, uvl_grammar::specs::steps::Reading::bind, uvl_grammar::specs::steps::Reading::done))]
pub(crate) fn negative(
    alloc: Global,
    minus: Place,
    tokens: &[Token],
) -> Result<(Boxed<Expr>, &[Token]), Stop>
    ensures { Gives (λ r. (r.0, r.1.now)) result (negative minus tokens.now) }
{
    let (value, _, rest) = number(tokens)?;
    Ok((
        Boxed::new(alloc, Expr::Number(negated(*value), minus))?,
        rest,
    ))
}

/// Reads what is behind the word `sum`: the name of an attribute in parentheses.
#[tactic(auto, unfolding(uvl_grammar::specs::steps::Expressions::total, uvl_grammar::specs::steps::Reading::bind, uvl_grammar::specs::steps::Reading::done))]
pub(crate) fn total(
    alloc: Global,
    word: Place,
    tokens: &[Token],
) -> Result<(Boxed<Expr>, &[Token]), Stop>
    ensures { Gives (λ r. (r.0, r.1.now)) result (total word tokens.now) }
{
    let (_, rest) = token(tokens, Symbol::LeftParen)?;
    let (key, _, rest) = name(rest)?;
    let (_, rest) = token(rest, Symbol::RightParen)?;
    Ok((Boxed::new(alloc, Expr::Sum(key.clone()?, word))?, rest))
}

/// Reads the name of a feature or of an attribute.
#[tactic(auto, unfolding(uvl_grammar::specs::steps::Expressions::named, uvl_grammar::specs::steps::Reading::bind, uvl_grammar::specs::steps::Reading::done))]
pub(crate) fn named(alloc: Global, tokens: &[Token]) -> Result<(Boxed<Expr>, &[Token]), Stop>
    ensures { Gives (λ r. (r.0, r.1.now)) result (named tokens.now) }
{
    let (name, rest) = reference(alloc, tokens)?;
    Ok((Boxed::new(alloc, Expr::Name(name))?, rest))
}

/// The operator of two operands that stands at a place.
pub(crate) fn binary(
    alloc: Global,
    operator: BinOp,
    left: Boxed<Expr>,
    right: Boxed<Expr>,
    place: Place,
) -> Result<Boxed<Expr>, AllocError>
    ensures { IfOk result (λ e. e ≡ expr.Binary operator left right place) }
{
    Boxed::new(alloc, Expr::Binary(operator, left, right, place))
}
