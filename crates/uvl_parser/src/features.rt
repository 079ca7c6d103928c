//! The tree of features: `feature = "Boolean"? ref braces? Newline (Indent group+ Dedent)?`,
//! `group = kind Newline Indent feature+ Dedent`.
ghost use Rattle.std.specs.Prelude.{◌≡◌, Ok, Err};
ghost use Rattle.uvl_grammar.specs.steps.Reading.{one_or_more, body, closed};
ghost use Rattle.uvl_parser.specs.steps.Gives.{Gives};
ghost use Rattle.uvl_grammar.specs.steps.Tests.{stays};
ghost use Rattle.uvl_grammar.specs.steps.Features.{boolean, group_with, feature_with, feature_at, tree};

use crate::entries::braces;
use crate::groups::group_front;
use crate::layout::Layout;
use crate::lists::{body, one_or_more};
use crate::reading::Stop;
use crate::reference::reference;
use crate::tokens::{begins_with, token};
use sqlite_items::Items;
use std::alloc::Global;
use uvl_ast::{Feature, Group};
use uvl_lexer::{Token, Word};

/// Reads a feature with all that is below it, however deep: each feature has tokens of its own.
pub(crate) fn tree(alloc: Global, tokens: &[Token]) -> Result<(Feature, &[Token]), Stop>
    ensures { Gives (λ r. (r.0, r.1.now)) result (tree tokens.now) }
{
    feature_at(alloc, tokens, tokens.len() + 1)
}

/// What is behind the word Boolean, where it stands in front.
#[tactic(auto, unfolding(uvl_grammar::specs::steps::Features::boolean, uvl_grammar::specs::steps::Reading::choose, uvl_grammar::specs::steps::Reading::bind, uvl_grammar::specs::steps::Reading::done))]
fn behind_boolean(tokens: &[Token]) -> Result<&[Token], Stop>
    ensures { Gives (λ rest. (tt, rest.now)) result (boolean tokens.now) }
{
    if begins_with(tokens, Word::Boolean) {
        let (_, rest) = token(tokens, Word::Boolean)?;
        Ok(rest)
    } else {
        Ok(tokens)
    }
}

/// Reads a feature that nests less than `depth` deep, itself counted.
#[cycle(features)]
#[tactic(auto, unfolding(uvl_grammar::specs::steps::Features::feature_at))]
fn feature_at(alloc: Global, tokens: &[Token], depth: usize) -> Result<(Feature, &[Token]), Stop>
    ensures { Gives (λ r. (r.0, r.1.now)) result (feature_at depth tokens.now) }
{
    if depth == 0 {
        return Err(Stop::Stuck { left: tokens.len() });
    }
    feature(alloc, tokens, depth - 1)
}

/// Reads a feature whose members nest less than `depth` deep, themselves counted.
#[cycle(features)]
#[tactic(auto, unfolding(uvl_grammar::specs::steps::Features::feature_with, uvl_grammar::specs::steps::Reading::bind, uvl_grammar::specs::steps::Reading::done))]
fn feature(alloc: Global, tokens: &[Token], depth: usize) -> Result<(Feature, &[Token]), Stop>
    ensures { Gives (λ r. (r.0, r.1.now)) result (feature_with (feature_at depth) tokens.now) }
{
    let rest = behind_boolean(tokens)?;
    let (name, rest) = reference(alloc, rest)?;
    let (kept, rest) = braces(alloc, rest)?;
    let (_, rest) = token(rest, Layout::Newline)?;
    let (groups, rest) = groups(alloc, rest, depth)?;
    Ok((
        Feature {
            name,
            attributes: kept.attributes,
            rules: kept.rules,
            groups,
        },
        rest,
    ))
}

/// Reads one or more groups that are indented further, or nothing.
#[cycle(features)]
fn groups(alloc: Global, tokens: &[Token], depth: usize) -> Result<(Items<Group>, &[Token]), Stop>
    ensures { Gives (λ r. (r.0, r.1.now)) result (body (group_with (feature_at depth)) tokens.now) }
{
    body(
        alloc,
        |alloc: Global, rest: &[Token]|
            ensures { Gives (λ r. (r.0, r.1.now)) result (group_with (feature_at depth) rest.now) }
        { group(alloc, rest, depth) },
        tokens,
    )
}

/// Reads a group whose members nest less than `depth` deep, themselves counted.
#[cycle(features)]
#[tactic(auto, unfolding(uvl_grammar::specs::steps::Features::group_with, uvl_grammar::specs::steps::Reading::bind, uvl_grammar::specs::steps::Reading::done))]
fn group(alloc: Global, tokens: &[Token], depth: usize) -> Result<(Group, &[Token]), Stop>
    ensures { Gives (λ r. (r.0, r.1.now)) result (group_with (feature_at depth) tokens.now) }
{
    let ((kind, place), rest) = group_front(tokens)?;
    let (_, rest) = token(rest, Layout::Newline)?;
    let (_, rest) = token(rest, Layout::Indent)?;
    let (members, rest) = members(alloc, rest, depth)?;
    let (_, rest) = token(rest, Layout::Dedent)?;
    Ok((
        Group {
            kind,
            members,
            place,
        },
        rest,
    ))
}

/// Reads one or more features.
#[cycle(features)]
fn members(
    alloc: Global,
    tokens: &[Token],
    depth: usize,
) -> Result<(Items<Feature>, &[Token]), Stop>
    ensures { Gives (λ r. (r.0, r.1.now)) result (one_or_more stays (feature_at depth) tokens.now) }
{
    one_or_more(
        alloc,
        |alloc: Global, rest: &[Token]|
            ensures { Gives (λ r. (r.0, r.1.now)) result (feature_at depth rest.now) }
        { feature_at(alloc, rest, depth) },
        tokens,
    )
}
