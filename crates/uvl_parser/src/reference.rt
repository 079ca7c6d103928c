//! References: `name ("." name)*`.
ghost use Rattle.std.specs.Prelude.{◌≡◌, Ok, Err};
ghost use Rattle.uvl_grammar.specs.steps.Reading.{many, with_front};
ghost use Rattle.uvl_parser.specs.steps.Gives.{Gives};
ghost use Rattle.uvl_grammar.specs.steps.Tests.{is_symbol};
ghost use Rattle.uvl_grammar.specs.steps.Refs.{dot_name, reference};
ghost use Rattle.uvl_lexer.specs.declared.token.Symbol.TheVariants.{Dot};

use crate::reading::Stop;
use crate::tokens::{begins_with, name, token};
use std::alloc::Global;
use uvl_ast::{Names, Ref};
use uvl_base::Name;
use uvl_lexer::{Symbol, Token};

/// Reads a reference.
#[tactic(auto, unfolding(uvl_grammar::specs::steps::Refs::reference, uvl_grammar::specs::steps::Reading::bind, uvl_grammar::specs::steps::Reading::done))]
pub(crate) fn reference(alloc: Global, tokens: &[Token]) -> Result<(Ref, &[Token]), Stop>
    ensures { Gives (λ r. (r.0, r.1.now)) result (reference tokens.now) }
{
    let (first, place, rest) = name(tokens)?;
    let mut parts = Names::new(alloc);
    parts.push(first.clone()?)?;
    let rest = dot_names(&mut parts, rest)?;
    Ok((Ref { parts, place }, rest))
}

/// Reads the names behind dots, and puts them behind the others.
fn dot_names<'a>(parts: &mut Names, tokens: &'a [Token]) -> Result<&'a [Token], Stop>
    ensures { Gives (λ rest. (parts.new, rest.now)) result
        (with_front parts.old (many (is_symbol Dot) dot_name tokens.now)) }
{
    let mut rest = tokens;
    for _turn in 0..tokens.len() {
        if !begins_with(rest, Symbol::Dot) {
            return Ok(rest);
        }
        let (name, behind) = dot_name(rest)?;
        parts.push(name.clone()?)?;
        rest = behind;
    }
    Ok(rest)
}

/// Reads a dot and the name behind it.
#[tactic(auto, unfolding(uvl_grammar::specs::steps::Refs::dot_name, uvl_grammar::specs::steps::Reading::bind, uvl_grammar::specs::steps::Reading::done))]
fn dot_name(tokens: &[Token]) -> Result<(&Name, &[Token]), Stop>
    ensures { Gives (λ r. (r.0.now, r.1.now)) result (dot_name tokens.now) }
{
    let (_, rest) = token(tokens, Symbol::Dot)?;
    let (name, _, rest) = name(rest)?;
    Ok((name, rest))
}
