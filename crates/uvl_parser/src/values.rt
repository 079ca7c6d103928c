//! Attributes and their values:
//! `plain = name value?`, `value = "true" | "false" | "-"? number | text`, attributes in braces or
//! values in brackets.
ghost use Rattle.std.specs.Prelude.{◌≡◌, Ok, Err, Some, None, IfOk, option_map};
ghost use Rattle.uvl_grammar.specs.steps.Reading.{separated, closed, accept, done};
ghost use Rattle.uvl_parser.specs.steps.Gives.{Gives};
ghost use Rattle.uvl_grammar.specs.steps.Tests.{is_symbol, begins_value, begins};
ghost use Rattle.uvl_grammar.specs.steps.Values.{value_of, simple_value, value_at, attribute_at, attribute, list_with, vector_with};
ghost use Rattle.uvl_lexer.specs.declared.token.Symbol.TheVariants.{RightBrace, RightBracket};

use crate::lists::separated;
use crate::number::{negated, number};
use crate::reading::Stop;
use crate::tokens::{begins_with, name, token};
use sqlite_items::Items;
use std::alloc::{AllocError, Global};
use uvl_ast::{AttrValue, Attribute};
use uvl_base::Place;
use uvl_lexer::{Symbol, Token, TokenKind, Word};

/// The value that a token is by itself.
fn value_of(kind: &TokenKind) -> Result<Option<AttrValue>, AllocError>
    ensures { IfOk result (λ value. value ≡ value_of kind.now) }
{
    Ok(match kind {
        TokenKind::Word(Word::True) => Some(AttrValue::Yes),
        TokenKind::Word(Word::False) => Some(AttrValue::No),
        TokenKind::Number { value, .. } => Some(AttrValue::Number(*value)),
        TokenKind::Text(text) => Some(AttrValue::Words(text.clone()?)),
        _ => None,
    })
}

/// Whether a value begins with a token.
fn begins_value(tokens: &[Token]) -> bool
    ensures { result ≡ begins begins_value tokens.now }
{
    match tokens.split_first() {
        Some((token, _)) => matches!(
            &token.kind,
            TokenKind::Symbol(Symbol::LeftBrace | Symbol::LeftBracket | Symbol::Minus)
                | TokenKind::Word(Word::True | Word::False)
                | TokenKind::Number { .. }
                | TokenKind::Text(_)
        ),
        None => false,
    }
}

/// Reads a value that is one token.
#[tactic(auto, unfolding(uvl_grammar::specs::steps::Reading::accept, uvl_grammar::specs::steps::Reading::bind, uvl_grammar::specs::steps::Reading::done))]
fn single_value(tokens: &[Token]) -> Result<(AttrValue, Place, &[Token]), Stop>
    ensures { Gives (λ r. ((r.0, r.1), r.2.now)) result (accept value_of tokens.now) }
{
    let Some((token, rest)) = tokens.split_first() else {
        return Err(Stop::Stuck { left: 0 });
    };
    match value_of(&token.kind)? {
        Some(value) => Ok((value, token.place, rest)),
        None => Err(Stop::Stuck { left: tokens.len() }),
    }
}

/// Reads a value without braces and brackets.
#[tactic(auto, unfolding(uvl_grammar::specs::steps::Values::simple_value, uvl_grammar::specs::steps::Reading::choose, uvl_grammar::specs::steps::Reading::bind, uvl_grammar::specs::steps::Reading::done))]
fn simple_value(tokens: &[Token]) -> Result<(AttrValue, &[Token]), Stop>
    ensures { Gives (λ r. (r.0, r.1.now)) result (simple_value tokens.now) }
{
    if begins_with(tokens, Symbol::Minus) {
        let (_, rest) = token(tokens, Symbol::Minus)?;
        let (value, _, rest) = number(rest)?;
        Ok((AttrValue::Number(negated(*value)), rest))
    } else {
        let (value, _, rest) = single_value(tokens)?;
        Ok((value, rest))
    }
}

/// Reads an attribute, however deep its value nests: braces and brackets are tokens too.
pub(crate) fn attribute(alloc: Global, tokens: &[Token]) -> Result<(Attribute, &[Token]), Stop>
    ensures { Gives (λ r. (r.0, r.1.now)) result (attribute tokens.now) }
{
    attribute_at(alloc, tokens, tokens.len() + 1)
}

/// Reads an attribute whose value nests less than `depth` deep.
#[cycle(values)]
#[tactic(auto, unfolding(uvl_grammar::specs::steps::Values::attribute_with, uvl_grammar::specs::steps::Reading::choose, uvl_grammar::specs::steps::Reading::bind, uvl_grammar::specs::steps::Reading::done))]
fn attribute_at(
    alloc: Global,
    tokens: &[Token],
    depth: usize,
) -> Result<(Attribute, &[Token]), Stop>
    ensures { Gives (λ r. (r.0, r.1.now)) result (attribute_at depth tokens.now) }
{
    let (key, place, rest) = name(tokens)?;
    let key = key.clone()?;
    if begins_value(rest) {
        let (value, rest) = value_at(alloc, rest, depth)?;
        Ok((Attribute { key, value, place }, rest))
    } else {
        let value = AttrValue::Yes;
        Ok((Attribute { key, value, place }, rest))
    }
}

/// Reads a value that nests less than `depth` deep.
#[cycle(values)]
#[tactic(auto, unfolding(uvl_grammar::specs::steps::Values::value_at, uvl_grammar::specs::steps::Values::value_with, uvl_grammar::specs::steps::Reading::choose, uvl_grammar::specs::steps::Reading::bind, uvl_grammar::specs::steps::Reading::done))]
fn value_at(alloc: Global, tokens: &[Token], depth: usize) -> Result<(AttrValue, &[Token]), Stop>
    ensures { Gives (λ r. (r.0, r.1.now)) result (value_at depth tokens.now) }
{
    if depth == 0 {
        return Err(Stop::Stuck { left: tokens.len() });
    }
    if begins_with(tokens, Symbol::LeftBrace) {
        let (_, rest) = token(tokens, Symbol::LeftBrace)?;
        list(alloc, rest, depth - 1)
    } else if begins_with(tokens, Symbol::LeftBracket) {
        let (_, rest) = token(tokens, Symbol::LeftBracket)?;
        vector(alloc, rest, depth - 1)
    } else {
        simple_value(tokens)
    }
}

/// Reads attributes with commas between them, and the brace that closes them.
#[cycle(values)]
#[tactic(auto, unfolding(uvl_grammar::specs::steps::Values::list_with, uvl_grammar::specs::steps::Reading::bind, uvl_grammar::specs::steps::Reading::done))]
fn list(alloc: Global, tokens: &[Token], depth: usize) -> Result<(AttrValue, &[Token]), Stop>
    ensures { Gives (λ r. (r.0, r.1.now)) result (list_with (value_at depth) tokens.now) }
{
    let (attributes, rest) = attributes(alloc, tokens, depth)?;
    let (_, rest) = token(rest, Symbol::RightBrace)?;
    Ok((AttrValue::List(attributes), rest))
}

/// Reads attributes with commas between them.
#[cycle(values)]
fn attributes(
    alloc: Global,
    tokens: &[Token],
    depth: usize,
) -> Result<(Items<Attribute>, &[Token]), Stop>
    ensures { Gives (λ r. (r.0, r.1.now)) result (separated (is_symbol RightBrace) (attribute_at depth) tokens.now) }
{
    separated(
        alloc,
        Symbol::RightBrace,
        |alloc: Global, rest: &[Token]|
            ensures { Gives (λ r. (r.0, r.1.now)) result (attribute_at depth rest.now) }
        { attribute_at(alloc, rest, depth) },
        tokens,
    )
}

/// Reads values with commas between them, and the bracket that closes them.
#[cycle(values)]
#[tactic(auto, unfolding(uvl_grammar::specs::steps::Values::vector_with, uvl_grammar::specs::steps::Reading::bind, uvl_grammar::specs::steps::Reading::done))]
fn vector(alloc: Global, tokens: &[Token], depth: usize) -> Result<(AttrValue, &[Token]), Stop>
    ensures { Gives (λ r. (r.0, r.1.now)) result (vector_with (value_at depth) tokens.now) }
{
    let (values, rest) = values(alloc, tokens, depth)?;
    let (_, rest) = token(rest, Symbol::RightBracket)?;
    Ok((AttrValue::Vector(values), rest))
}

/// Reads values with commas between them.
#[cycle(values)]
fn values(
    alloc: Global,
    tokens: &[Token],
    depth: usize,
) -> Result<(Items<AttrValue>, &[Token]), Stop>
    ensures { Gives (λ r. (r.0, r.1.now)) result (separated (is_symbol RightBracket) (value_at depth) tokens.now) }
{
    separated(
        alloc,
        Symbol::RightBracket,
        |alloc: Global, rest: &[Token]|
            ensures { Gives (λ r. (r.0, r.1.now)) result (value_at depth rest.now) }
        { value_at(alloc, rest, depth) },
        tokens,
    )
}
