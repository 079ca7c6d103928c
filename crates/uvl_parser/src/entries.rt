//! The readers of what stands in braces.
ghost use Rattle.std.specs.Prelude.{◌≡◌, Ok, Err, [], ◌∷◌, ◌++◌, OnOk};
ghost use Rattle.uvl_grammar.specs.Braces.{attributes_of, rules_of};
ghost use Rattle.uvl_grammar.specs.steps.Reading.{many, behind_comma, separated};
ghost use Rattle.uvl_parser.specs.steps.Gives.{Gives};
ghost use Rattle.uvl_parser.specs.steps.Keeping.{GivesKept};
ghost use Rattle.uvl_grammar.specs.steps.Tests.{is_symbol};
ghost use Rattle.uvl_grammar.specs.steps.Expressions.{expression};
ghost use Rattle.uvl_grammar.specs.steps.Braces.{rule_list, entry, braces, kept, kept_behind, kept_closed};
ghost use Rattle.uvl_lexer.specs.declared.token.Symbol.TheVariants.{Comma, RightBracket, RightBrace};

use crate::braces::Kept;
use crate::expression::expression;
use crate::lists::separated;
use crate::reading::Stop;
use crate::tokens::{begins_with, token};
use crate::values::attribute;
use sqlite_items::Items;
use std::alloc::{AllocError, Global};
use uvl_ast::Expr;
use uvl_grammar::Entry;
use uvl_lexer::{Symbol, Token, Word};

/// Reads braces, where there are any.
#[tactic(auto, unfolding(uvl_grammar::specs::steps::Braces::braces, uvl_grammar::specs::steps::Reading::choose, uvl_grammar::specs::steps::Reading::bind, uvl_grammar::specs::steps::Reading::done))]
pub(crate) fn braces(alloc: Global, tokens: &[Token]) -> Result<(Kept, &[Token]), Stop>
    ensures { GivesKept result (kept (braces tokens.now)) }
{
    if begins_with(tokens, Symbol::LeftBrace) {
        let (_, rest) = token(tokens, Symbol::LeftBrace)?;
        closed_entries(alloc, rest)
    } else {
        Ok((nothing(alloc), tokens))
    }
}

/// Reads entries and the brace that closes them.
fn closed_entries(alloc: Global, tokens: &[Token]) -> Result<(Kept, &[Token]), Stop>
    ensures { GivesKept result (kept_closed (kept (separated (is_symbol RightBrace) entry tokens.now))) }
{
    let (kept, rest) = entries(alloc, tokens)?;
    let (_, rest) = token(rest, Symbol::RightBrace)?;
    Ok((kept, rest))
}

/// No attributes and no rules.
fn nothing(alloc: Global) -> Kept
    ensures attributes { result.attributes ≡ [] }
    ensures rules { result.rules ≡ [] }
{
    Kept {
        attributes: Items::new(alloc),
        rules: Items::new(alloc),
    }
}

/// Reads entries with commas between them.
#[tactic(auto, unfolding(uvl_grammar::specs::steps::Reading::separated, uvl_grammar::specs::steps::Reading::choose, uvl_grammar::specs::steps::Reading::bind, uvl_grammar::specs::steps::Reading::done))]
fn entries(alloc: Global, tokens: &[Token]) -> Result<(Kept, &[Token]), Stop>
    ensures { GivesKept result (kept (separated (is_symbol RightBrace) entry tokens.now)) }
{
    let mut kept = nothing(alloc);
    if begins_with(tokens, Symbol::RightBrace) {
        return Ok((kept, tokens));
    }
    let (first, rest) = entry(alloc, tokens)?;
    keep(&mut kept, first)?;
    let rest = more_entries(alloc, &mut kept, rest)?;
    Ok((kept, rest))
}

/// Reads entries behind commas, and puts them behind the others.
fn more_entries<'a>(
    alloc: Global,
    kept: &mut Kept,
    tokens: &'a [Token],
) -> Result<&'a [Token], Stop>
    ensures { Gives (λ rest. ((kept.new.attributes, kept.new.rules), rest.now)) result
        (kept_behind kept.old.attributes kept.old.rules (many (is_symbol Comma) (behind_comma entry) tokens.now)) }
{
    let mut rest = tokens;
    for _turn in 0..tokens.len() {
        if !begins_with(rest, Symbol::Comma) {
            return Ok(rest);
        }
        let (next, behind) = next_entry(alloc, rest)?;
        keep(kept, next)?;
        rest = behind;
    }
    Ok(rest)
}

/// Puts an entry behind the others.
fn keep(kept: &mut Kept, entry: Entry) -> Result<(), AllocError>
    ensures attributes { OnOk result (kept.new.attributes ≡ kept.old.attributes ++ attributes_of (entry ∷ [])) }
    ensures rules { OnOk result (kept.new.rules ≡ kept.old.rules ++ rules_of (entry ∷ [])) }
{
    match entry {
        Entry::Plain(attribute) => kept.attributes.push(attribute)?,
        Entry::Rule(rule) => kept.rules.push(rule)?,
        Entry::Rules(rules) => kept.rules.append(rules)?,
    }
    Ok(())
}

/// Reads an entry behind a comma.
#[tactic(auto, unfolding(uvl_grammar::specs::steps::Reading::behind_comma, uvl_grammar::specs::steps::Reading::bind))]
fn next_entry(alloc: Global, tokens: &[Token]) -> Result<(Entry, &[Token]), Stop>
    ensures { Gives (λ r. (r.0, r.1.now)) result (behind_comma entry tokens.now) }
{
    let (_, rest) = token(tokens, Symbol::Comma)?;
    entry(alloc, rest)
}

/// Reads an entry.
#[tactic(auto, unfolding(uvl_grammar::specs::steps::Braces::entry, uvl_grammar::specs::steps::Reading::choose, uvl_grammar::specs::steps::Reading::bind, uvl_grammar::specs::steps::Reading::done))]
fn entry(alloc: Global, tokens: &[Token]) -> Result<(Entry, &[Token]), Stop>
    ensures { Gives (λ r. (r.0, r.1.now)) result (entry tokens.now) }
{
    if begins_with(tokens, Word::Constraint) {
        let (_, rest) = token(tokens, Word::Constraint)?;
        let (rule, rest) = expression(alloc, rest)?;
        Ok((Entry::Rule(rule), rest))
    } else if begins_with(tokens, Word::Constraints) {
        let (_, rest) = token(tokens, Word::Constraints)?;
        let (rules, rest) = rule_list(alloc, rest)?;
        Ok((Entry::Rules(rules), rest))
    } else {
        let (attribute, rest) = attribute(alloc, tokens)?;
        Ok((Entry::Plain(attribute), rest))
    }
}

/// Reads rules in brackets.
#[tactic(auto, unfolding(uvl_grammar::specs::steps::Braces::rule_list, uvl_grammar::specs::steps::Reading::bind, uvl_grammar::specs::steps::Reading::done))]
fn rule_list(alloc: Global, tokens: &[Token]) -> Result<(Items<Expr>, &[Token]), Stop>
    ensures { Gives (λ r. (r.0, r.1.now)) result (rule_list tokens.now) }
{
    let (_, rest) = token(tokens, Symbol::LeftBracket)?;
    let (rules, rest) = rules(alloc, rest)?;
    let (_, rest) = token(rest, Symbol::RightBracket)?;
    Ok((rules, rest))
}

/// Reads rules with commas between them.
fn rules(alloc: Global, tokens: &[Token]) -> Result<(Items<Expr>, &[Token]), Stop>
    ensures { Gives (λ r. (r.0, r.1.now)) result (separated (is_symbol RightBracket) expression tokens.now) }
{
    separated(alloc, Symbol::RightBracket, expression, tokens)
}
