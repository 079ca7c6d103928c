//! The words of a text.
ghost use Rattle.std.specs.Prelude.{⊤, List, ℕ, ◌≡◌, ◌↔◌, ◌≤◌, ◌<◌, [], ◌++◌, drop, length, chars, Some, None, IsTrue, IsFalse, IsOk, IsSome, IfOk, OnErr, is_some, MatchOption};
ghost use Rattle.std.specs.List.{list_all, prefix_len};
ghost use Rattle.uvl_base.specs.Name.{is_name};
ghost use Rattle.uvl_script.specs.Words.{is_separator, is_solid, ends_word, words_of, IsMadeOf};
ghost use Rattle.uvl_script.specs.steps.Pieces.{IsFirstWord, IsFrontWord, IsQuotedFront};

use crate::fault::WordFault;
use std::alloc::{AllocError, Global};
use uvl_base::{Name, NameFault, OutOfMemory, is_name};

/// The words of a text are those that it is made of, and it is made of no others.
pub fn every_text_has_its_words()
    ensures made { (text : List ℕ) (words : List (List ℕ)) → words_of text ≡ Some words → IsMadeOf text words }
    ensures alone { (text : List ℕ) (words : List (List ℕ)) → IsMadeOf text words → words_of text ≡ Some words }
{}

/// Whether the text is made of words that are names, and of separators.
pub(crate) fn has_words(text: &str) -> bool
    ensures { result ≡ is_some (words_of (chars text.now)) }
{
    let mut rest = text;
    loop {
        match split_word(rest) {
            Ok(Some((_, behind))) => rest = behind,
            Ok(None) => return true,
            Err(_) => return false,
        }
    }
}

/// The words of a text, each copied once.
pub(crate) fn copy_words(alloc: Global, text: &str) -> Result<Vec<Name>, OutOfMemory>
    requires { IsSome (words_of (chars text.now)) }
    ensures words { IfOk result (λ words. words_of (chars text.now) ≡ Some words.items) }
    ensures blank { words_of (chars text.now) ≡ Some [] → IsOk result }
{
    let mut words = Vec::new(alloc);
    let mut rest = text;
    // What is left is made of words too, so that nothing but its end ends the loop.
    while let Ok(Some((word, behind))) = split_word(rest) {
        words.push(copy_word(alloc, word)?)?;
        rest = behind;
    }
    Ok(words)
}

fn copy_word(alloc: Global, word: &str) -> Result<Name, OutOfMemory>
    requires { IsTrue (is_name (chars word.now)) }
    ensures { IfOk result (λ name. name ≡ chars word.now) }
{
    match Name::new(alloc, word) {
        Ok(name) => Ok(name),
        Err(NameFault::BadName) => unreachable!(),
        Err(NameFault::OutOfMemory) => Err(AllocError),
    }
}

/// Whether a text has no words.
pub(crate) fn is_blank(text: &str) -> bool
    ensures { IsTrue result ↔ (words_of (chars text.now) ≡ Some []) }
{
    match split_word(text) {
        Ok(first) => first.is_none(),
        Err(_) => false,
    }
}

/// The first word of a text with what stands behind it, or none where the text is blank. It is
/// refused as `BadName` where the text isn't cut there, or the word is no name.
pub(crate) fn split_word(text: &str) -> Result<Option<(&str, &str)>, WordFault>
    ensures first { IfOk result (λ first. IsFirstWord text.now first) }
    ensures name { IfOk result (λ first. MatchOption first ⊤ (λ parts. IsTrue (is_name (chars parts.0.now)))) }
    ensures shorter { IfOk result (λ first. MatchOption first ⊤ (λ parts. length parts.1.now < length text.now)) }
    ensures bad_name { OnErr result (words_of (chars text.now) ≡ None) }
{
    let text = after_separators(text);
    if text.is_empty() {
        return Ok(None);
    }
    match front_word(text) {
        Some((word, rest)) if is_name(word) => Ok(Some((word, rest))),
        _ => Err(WordFault::BadName),
    }
}

/// The text from its first character on that is no separator.
pub(crate) fn after_separators(text: &str) -> &str
    ensures { result.now ≡ drop (prefix_len is_separator text.now) text.now }
{
    let count = separators_in_front(text.as_bytes());
    &text[count..]
}

/// How many separators stand in front of the first word.
fn separators_in_front(bytes: &[u8]) -> usize
    ensures count { result ≡ prefix_len is_separator bytes.now }
    ensures within { result ≤ length bytes.now }
{
    bytes.iter().take_while(|byte| is_separator(**byte)).count()
}

/// The word with which a text begins, with what stands behind it. There is none where a quoted
/// word isn't closed, or is closed and no separator follows.
fn front_word(text: &str) -> Option<(&str, &str)>
    requires { IsFalse (ends_word text.now) }
    ensures { IsFrontWord text.now result }
{
    match text.strip_prefix('"') {
        Some(quoted) => split_quoted(quoted),
        None => Some(split_plain(text)),
    }
}

/// The text up to a quote, and what stands behind that quote, where a word may end there.
fn split_quoted(text: &str) -> Option<(&str, &str)>
    ensures { IsQuotedFront text.now result }
{
    let Some((word, rest)) = text.split_once('"') else {
        return None;
    };
    if ends_word(rest) {
        Some((word, rest))
    } else {
        None
    }
}

/// The text up to a separator or its end, and what stands from there on.
fn split_plain(text: &str) -> (&str, &str)
    ensures spelled { text.now ≡ result.0.now ++ result.1.now }
    ensures solid { IsTrue (list_all is_solid result.0.now) }
    ensures ends { IsTrue (ends_word result.1.now) }
{
    let len = solid_len(text.as_bytes());
    (&text[..len], &text[len..])
}

/// How many bytes stand in front of the first separator.
fn solid_len(bytes: &[u8]) -> usize
    ensures count { result ≡ prefix_len is_solid bytes.now }
    ensures within { result ≤ length bytes.now }
{
    bytes
        .iter()
        .take_while(|byte| !is_separator(**byte))
        .count()
}

/// Whether a word may end in front of this text.
fn ends_word(text: &str) -> bool
    ensures { result ≡ ends_word text.now }
{
    match text.as_bytes() {
        [] => true,
        [first, ..] => is_separator(*first),
    }
}

fn is_separator(byte: u8) -> bool
    ensures { result ≡ is_separator byte }
{
    matches!(byte, b' ' | b'\t')
}
