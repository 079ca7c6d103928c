//! Lists of parts, whatever reads a part: one or more while the indentation of their lines goes on, and none or
//! more with commas between them.
ghost use Rattle.std.specs.Prelude.{◌≡◌, Ok, Err, ◌++◌};
ghost use Rattle.uvl_grammar.specs.steps.Reading.{many, one_or_more, body, behind_comma, separated, with_front};
ghost use Rattle.uvl_grammar.specs.steps.Tests.{stays, is_symbol};
ghost use Rattle.uvl_lexer.specs.declared.token.Symbol.TheVariants.{Comma};
ghost use Rattle.uvl_parser.specs.steps.Gives.{GivesWith};

use crate::layout::Layout;
use crate::reading::Stop;
use crate::tokens::{Stays, TokenTest, begins_with, token};
use sqlite_items::Items;
use std::alloc::Global;
use uvl_lexer::{Symbol, Token};

/// Reads one or more parts that are indented further, or nothing.
#[tactic(auto, unfolding(uvl_grammar::specs::steps::Reading::body, uvl_grammar::specs::steps::Reading::choose, uvl_grammar::specs::steps::Reading::bind, uvl_grammar::specs::steps::Reading::done))]
pub(crate) fn body<T: Drop, F: Fn(Global, &[Token]) -> Result<(T, &[Token]), Stop>>(
    alloc: Global,
    read: F,
    tokens: &[Token],
) -> Result<(Items<T>, &[Token]), Stop>
    requires { F.IsAlwaysCallable read }
    ensures { GivesWith (F.post read) (λ r. (r.0, r.1.now)) result
        (λ p. body p tokens.now) }
{
    if begins_with(tokens, Layout::Indent) {
        let (_, rest) = token(tokens, Layout::Indent)?;
        let (parts, rest) = one_or_more(alloc, read, rest)?;
        let (_, rest) = token(rest, Layout::Dedent)?;
        Ok((parts, rest))
    } else {
        Ok((Items::new(alloc), tokens))
    }
}

/// Reads one or more parts, as long as the indentation goes on.
#[tactic(auto, unfolding(uvl_grammar::specs::steps::Reading::one_or_more, uvl_grammar::specs::steps::Reading::bind, uvl_grammar::specs::steps::Reading::done))]
pub(crate) fn one_or_more<T: Drop, F: Fn(Global, &[Token]) -> Result<(T, &[Token]), Stop>>(
    alloc: Global,
    read: F,
    tokens: &[Token],
) -> Result<(Items<T>, &[Token]), Stop>
    requires { F.IsAlwaysCallable read }
    ensures { GivesWith (F.post read) (λ r. (r.0, r.1.now)) result
        (λ p. one_or_more stays p tokens.now) }
{
    let (first, rest) = read(alloc, tokens)?;
    let mut parts = Items::new(alloc);
    parts.push(first)?;
    let rest = more(alloc, &mut parts, Stays, &read, rest)?;
    Ok((parts, rest))
}

/// Reads parts with commas between them, in front of a symbol that closes them.
#[tactic(auto, unfolding(uvl_grammar::specs::steps::Reading::separated, uvl_grammar::specs::steps::Reading::choose, uvl_grammar::specs::steps::Reading::bind, uvl_grammar::specs::steps::Reading::done))]
pub(crate) fn separated<T: Drop, F: Fn(Global, &[Token]) -> Result<(T, &[Token]), Stop>>(
    alloc: Global,
    closes: Symbol,
    read: F,
    tokens: &[Token],
) -> Result<(Items<T>, &[Token]), Stop>
    requires { F.IsAlwaysCallable read }
    ensures { GivesWith (F.post read) (λ r. (r.0, r.1.now)) result
        (λ p. separated (is_symbol closes) p tokens.now) }
{
    let mut parts = Items::new(alloc);
    if begins_with(tokens, closes) {
        return Ok((parts, tokens));
    }
    let (first, rest) = read(alloc, tokens)?;
    parts.push(first)?;
    let rest = more_behind_commas(alloc, &mut parts, &read, rest)?;
    Ok((parts, rest))
}

/// Reads parts as long as the first token passes a test, and puts them behind the others.
fn more<'a, W: TokenTest, T: Drop, F: Fn(Global, &[Token]) -> Result<(T, &[Token]), Stop>>(
    alloc: Global,
    parts: &mut Items<T>,
    goes_on: W,
    read: &F,
    tokens: &'a [Token],
) -> Result<&'a [Token], Stop>
    requires { F.IsAlwaysCallable read.now }
    ensures { GivesWith (F.post read.now) (λ rest. (parts.new, rest.now)) result
        (λ p. with_front parts.old (many (W.test goes_on) p tokens.now)) }
{
    let mut rest = tokens;
    for _turn in 0..tokens.len() {
        if !begins_with(rest, goes_on) {
            return Ok(rest);
        }
        let (next, behind) = read(alloc, rest)?;
        parts.push(next)?;
        rest = behind;
    }
    Ok(rest)
}

/// Reads parts that each stand behind a comma, and puts them behind the others.
fn more_behind_commas<'a, T: Drop, F: Fn(Global, &[Token]) -> Result<(T, &[Token]), Stop>>(
    alloc: Global,
    parts: &mut Items<T>,
    read: &F,
    tokens: &'a [Token],
) -> Result<&'a [Token], Stop>
    requires { F.IsAlwaysCallable read.now }
    ensures { GivesWith (F.post read.now) (λ rest. (parts.new, rest.now)) result
        (λ p. with_front parts.old (many (is_symbol Comma) (behind_comma p) tokens.now)) }
{
    more(
        alloc,
        parts,
        Symbol::Comma,
        &|alloc, behind| behind_comma(alloc, read, behind),
        tokens,
    )
}

/// Reads a part behind a comma.
#[tactic(auto, unfolding(uvl_grammar::specs::steps::Reading::behind_comma, uvl_grammar::specs::steps::Reading::bind))]
fn behind_comma<'a, T: Drop, F: Fn(Global, &[Token]) -> Result<(T, &[Token]), Stop>>(
    alloc: Global,
    read: &F,
    tokens: &'a [Token],
) -> Result<(T, &'a [Token]), Stop>
    requires { F.IsAlwaysCallable read.now }
    ensures { GivesWith (F.post read.now) (λ r. (r.0, r.1.now)) result
        (λ p. behind_comma p tokens.now) }
{
    let (_, rest) = token(tokens, Symbol::Comma)?;
    read(alloc, rest)
}
