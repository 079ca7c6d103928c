//! The sections of a file: the namespace, the features, those that are made of lines, and a line of `imports` and
//! of `constraints`.
ghost use Rattle.std.specs.Prelude.{◌≡◌, Ok, Err, Some, None};
ghost use Rattle.uvl_base.specs.declared.word.Word.TheVariants.{Imports, Constraints};
ghost use Rattle.uvl_parser.specs.steps.Gives.{Gives, GivesWith};
ghost use Rattle.uvl_grammar.specs.steps.Sections.{namespace, alias, import_line, features, rule, section};

use crate::expression::expression;
use crate::features::tree;
use crate::layout::Layout;
use crate::lists::body;
use crate::reading::Stop;
use crate::reference::reference;
use crate::tokens::{begins_with, token};
use sqlite_items::Items;
use std::alloc::Global;
use uvl_ast::{Expr, Feature, Import, Ref};
use uvl_lexer::{Token, Word};

/// Reads `namespace = "namespace" ref Newline`, where it stands.
#[tactic(auto, unfolding(uvl_grammar::specs::steps::Sections::namespace, uvl_grammar::specs::steps::Reading::choose, uvl_grammar::specs::steps::Reading::bind, uvl_grammar::specs::steps::Reading::done))]
pub(crate) fn namespace(alloc: Global, tokens: &[Token]) -> Result<(Option<Ref>, &[Token]), Stop>
    ensures { Gives (λ r. (r.0, r.1.now)) result (namespace tokens.now) }
{
    if begins_with(tokens, Word::Namespace) {
        let (_, rest) = token(tokens, Word::Namespace)?;
        let (name, rest) = reference(alloc, rest)?;
        let (_, rest) = token(rest, Layout::Newline)?;
        Ok((Some(name), rest))
    } else {
        Ok((None, tokens))
    }
}

/// Reads `features = "features" Newline Indent feature Dedent`, where it stands.
#[tactic(auto, unfolding(uvl_grammar::specs::steps::Sections::features, uvl_grammar::specs::steps::Reading::choose, uvl_grammar::specs::steps::Reading::bind, uvl_grammar::specs::steps::Reading::done))]
pub(crate) fn features(alloc: Global, tokens: &[Token]) -> Result<(Option<Feature>, &[Token]), Stop>
    ensures { Gives (λ r. (r.0, r.1.now)) result (features tokens.now) }
{
    if begins_with(tokens, Word::Features) {
        let (_, rest) = token(tokens, Word::Features)?;
        let (_, rest) = token(rest, Layout::Newline)?;
        let (_, rest) = token(rest, Layout::Indent)?;
        let (root, rest) = tree(alloc, rest)?;
        let (_, rest) = token(rest, Layout::Dedent)?;
        Ok((Some(root), rest))
    } else {
        Ok((None, tokens))
    }
}

/// Reads `section = name Newline (Indent line+ Dedent)?`, where it stands, whatever reads a line of it.
#[tactic(auto, unfolding(uvl_grammar::specs::steps::Sections::section, uvl_grammar::specs::steps::Reading::choose, uvl_grammar::specs::steps::Reading::bind, uvl_grammar::specs::steps::Reading::done))]
pub(crate) fn section<T: Drop, F: Fn(Global, &[Token]) -> Result<(T, &[Token]), Stop>>(
    alloc: Global,
    name: Word,
    line: F,
    tokens: &[Token],
) -> Result<(Items<T>, &[Token]), Stop>
    requires { F.IsAlwaysCallable line }
    ensures { GivesWith (F.post line) (λ r. (r.0, r.1.now)) result (λ p. section name p tokens.now) }
{
    if begins_with(tokens, name) {
        let (_, rest) = token(tokens, name)?;
        let (_, rest) = token(rest, Layout::Newline)?;
        body(alloc, line, rest)
    } else {
        Ok((Items::new(alloc), tokens))
    }
}

/// Reads the section of imports, where it stands.
pub(crate) fn imports(alloc: Global, tokens: &[Token]) -> Result<(Items<Import>, &[Token]), Stop>
    ensures { Gives (λ r. (r.0, r.1.now)) result (section Imports import_line tokens.now) }
{
    section(alloc, Word::Imports, import_line, tokens)
}

/// Reads a line of `imports`: `ref ("as" ref)? Newline`.
#[tactic(auto, unfolding(uvl_grammar::specs::steps::Sections::import_line, uvl_grammar::specs::steps::Reading::bind, uvl_grammar::specs::steps::Reading::done))]
fn import_line(alloc: Global, tokens: &[Token]) -> Result<(Import, &[Token]), Stop>
    ensures { Gives (λ r. (r.0, r.1.now)) result (import_line tokens.now) }
{
    let (path, rest) = reference(alloc, tokens)?;
    let (alias, rest) = alias(alloc, rest)?;
    let (_, rest) = token(rest, Layout::Newline)?;
    let place = path.place;
    Ok((Import { path, alias, place }, rest))
}

/// Reads what an import is called here, where that is said.
#[tactic(auto, unfolding(uvl_grammar::specs::steps::Sections::alias, uvl_grammar::specs::steps::Reading::choose, uvl_grammar::specs::steps::Reading::bind, uvl_grammar::specs::steps::Reading::done))]
fn alias(alloc: Global, tokens: &[Token]) -> Result<(Option<Ref>, &[Token]), Stop>
    ensures { Gives (λ r. (r.0, r.1.now)) result (alias tokens.now) }
{
    if begins_with(tokens, Word::As) {
        let (_, rest) = token(tokens, Word::As)?;
        let (name, rest) = reference(alloc, rest)?;
        Ok((Some(name), rest))
    } else {
        Ok((None, tokens))
    }
}

/// Reads the section of constraints, where it stands.
pub(crate) fn constraints(alloc: Global, tokens: &[Token]) -> Result<(Items<Expr>, &[Token]), Stop>
    ensures { Gives (λ r. (r.0, r.1.now)) result (section Constraints rule tokens.now) }
{
    section(alloc, Word::Constraints, rule, tokens)
}

/// Reads a line of `constraints`: `expr Newline`.
#[tactic(auto, unfolding(uvl_grammar::specs::steps::Sections::rule, uvl_grammar::specs::steps::Reading::bind, uvl_grammar::specs::steps::Reading::done))]
fn rule(alloc: Global, tokens: &[Token]) -> Result<(Expr, &[Token]), Stop>
    ensures { Gives (λ r. (r.0, r.1.now)) result (rule tokens.now) }
{
    let (rule, rest) = expression(alloc, tokens)?;
    let (_, rest) = token(rest, Layout::Newline)?;
    Ok((rule, rest))
}
