//! The lines of `include`. The text of a line is the spelling of its tokens.
ghost use Rattle.std.specs.Prelude.{◌≡◌, ◌++◌, Ok, Err, IfOk, OnOk, chars};
ghost use Rattle.std.specs.Option.{option_map};
ghost use Rattle.uvl_lexer.specs.declared.token.TokenKind.TheVariants as token;
ghost use Rattle.uvl_grammar.specs.steps.Tests.{begins};
ghost use Rattle.uvl_grammar.specs.Sections.{level_part, written_name};
ghost use Rattle.uvl_grammar.specs.steps.Reading.{many};
ghost use Rattle.uvl_parser.specs.steps.Gives.{Gives};
ghost use Rattle.uvl_base.specs.declared.word.Word.TheVariants.{Include};
ghost use Rattle.uvl_grammar.specs.steps.Sections.{level, level_token, is_level_part, section};
ghost use Rattle.uvl_parser.specs.steps.LanguageLevels.{characters_of, text_onto, texts_onto, line_text, level_text, Pushes};

use crate::layout::Layout;
use crate::reading::Stop;
use crate::sections::section;
use crate::tokens::token;
use sqlite_items::Items;
use std::alloc::{AllocError, Global};
use uvl_base::Text;
use uvl_lexer::{Symbol, Token, TokenKind, Word};

/// Puts a text behind another.
fn push_text(into: &mut String, text: &str) -> Result<(), AllocError>
    ensures { OnOk result (characters_of into.new ≡ characters_of into.old ++ chars text.now) }
{
    into.push_str(text)
}

/// Puts a name behind a text, with its quotes where it has them.
fn push_name(into: &mut String, name: &str, quoted: bool) -> Result<(), AllocError>
    ensures { OnOk result (characters_of into.new ≡ characters_of into.old ++ written_name (chars name.now) quoted) }
{
    if !quoted {
        return push_text(into, name);
    }
    push_text(into, "\"")?;
    push_text(into, name)?;
    push_text(into, "\"")
}

/// The spelling of a symbol that may stand in a language level.
fn symbol_text(symbol: Symbol) -> Option<&'static str>
    ensures { option_map (λ t. t.now) result ≡ level_part (token.Symbol symbol) }
{
    match symbol {
        Symbol::Dot => Some("."),
        Symbol::Minus => Some("-"),
        Symbol::Star => Some("*"),
        _ => None,
    }
}

/// Puts the spelling of a token behind a text, where it may stand in a language level, and says whether.
fn push_part(into: &mut String, kind: &TokenKind) -> Result<bool, AllocError>
    ensures { IfOk result (λ pushed.
        Pushes (level_part kind.now) pushed (characters_of into.old) (characters_of into.new)) }
{
    match kind {
        TokenKind::Name { name, quoted } => {
            push_name(into, name.text(), *quoted)?;
            Ok(true)
        }
        TokenKind::Word(word) => {
            push_text(into, word.text())?;
            Ok(true)
        }
        TokenKind::Symbol(symbol) => push_symbol(into, *symbol),
        _ => Ok(false),
    }
}

fn push_symbol(into: &mut String, symbol: Symbol) -> Result<bool, AllocError>
    ensures { IfOk result (λ pushed.
        Pushes (level_part (token.Symbol symbol)) pushed (characters_of into.old) (characters_of into.new)) }
{
    match symbol_text(symbol) {
        Some(text) => {
            push_text(into, text)?;
            Ok(true)
        }
        None => Ok(false),
    }
}

/// Reads a token of a language level, and puts its spelling behind a text.
fn level_token<'a>(into: &mut String, tokens: &'a [Token]) -> Result<&'a [Token], Stop>
    ensures { Gives (λ rest. (characters_of into.new, rest.now)) result
        (text_onto (characters_of into.old) (level_token tokens.now)) }
{
    let Some((first, rest)) = tokens.split_first() else {
        return Err(Stop::Stuck { left: 0 });
    };
    if push_part(into, &first.kind)? {
        Ok(rest)
    } else {
        Err(Stop::Stuck { left: tokens.len() })
    }
}

/// Whether the first token may stand in a language level.
fn begins_level_part(tokens: &[Token]) -> bool
    ensures { result ≡ begins is_level_part tokens.now }
{
    match tokens.split_first() {
        Some((first, _)) => is_level_part(&first.kind),
        None => false,
    }
}

fn is_level_part(kind: &TokenKind) -> bool
    ensures { result ≡ is_level_part kind.now }
{
    match kind {
        TokenKind::Name { .. } | TokenKind::Word(_) => true,
        TokenKind::Symbol(symbol) => is_level_symbol(*symbol),
        _ => false,
    }
}

fn is_level_symbol(symbol: Symbol) -> bool
    ensures { result ≡ is_level_part (token.Symbol symbol) }
{
    match symbol {
        Symbol::Dot | Symbol::Minus | Symbol::Star => true,
        _ => false,
    }
}

/// Reads the tokens of a language level as long as there are any, and puts their spellings behind a text.
fn more_tokens<'a>(into: &mut String, tokens: &'a [Token]) -> Result<&'a [Token], Stop>
    ensures { Gives (λ rest. (characters_of into.new, rest.now)) result
        (texts_onto (characters_of into.old) (many is_level_part level_token tokens.now)) }
{
    let mut rest = tokens;
    for _turn in 0..tokens.len() {
        if !begins_level_part(rest) {
            return Ok(rest);
        }
        let behind = level_token(into, rest)?;
        rest = behind;
    }
    Ok(rest)
}

/// Reads the text of a language level.
#[tactic(auto, unfolding(crate::specs::steps::LanguageLevels::line_text))]
fn line_text(alloc: Global, tokens: &[Token]) -> Result<(String, &[Token]), Stop>
    ensures { Gives (λ r. (characters_of r.0, r.1.now)) result (line_text tokens.now) }
{
    let mut text = String::new(alloc);
    let behind = level_token(&mut text, tokens)?;
    let rest = more_tokens(&mut text, behind)?;
    Ok((text, rest))
}

/// Reads a line of `include` by its text.
#[tactic(auto, unfolding(crate::specs::steps::LanguageLevels::level_text, uvl_grammar::specs::steps::Reading::bind, uvl_grammar::specs::steps::Reading::done))]
fn level_text(alloc: Global, tokens: &[Token]) -> Result<(Text, &[Token]), Stop>
    ensures { Gives (λ r. (r.0, r.1.now)) result (level_text tokens.now) }
{
    let (text, rest) = line_text(alloc, tokens)?;
    let (_, rest) = token(rest, Layout::Newline)?;
    Ok((Text::from(text), rest))
}

/// Reads the section of language levels, where it stands.
pub(crate) fn levels(alloc: Global, tokens: &[Token]) -> Result<(Items<Text>, &[Token]), Stop>
    ensures { Gives (λ r. (r.0, r.1.now)) result (section Include level tokens.now) }
{
    section(alloc, Word::Include, level, tokens)
}

/// Reads a line of `include`: `level Newline`.
fn level(alloc: Global, tokens: &[Token]) -> Result<(Text, &[Token]), Stop>
    ensures { Gives (λ r. (r.0, r.1.now)) result (level tokens.now) }
{
    level_text(alloc, tokens)
}
