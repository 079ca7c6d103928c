//! The words of the command line. `clap` says which word is the option's value and which the model;
//! that they are written as they have to be is checked here, and no text of `clap` is shown.
ghost use Rattle.std.specs.Prelude.{◌≡◌, IfOk, IfSome, IsFalse, codes, map, option_map};
ghost use Rattle.std.specs.Char.{is_ascii_digit};
ghost use Rattle.std.specs.List.{list_all};
ghost use Rattle.std.specs.Str.{bytes_eq, IsUtf8};
ghost use Rattle.clap.specs.Words.{app_of};
ghost use Rattle.uvl_words.specs.CommandLine.{budget_of, request_of, request_with};
ghost use Rattle.uvl_words.specs.CommandLineRules.{AreTexts, has_lone_hyphen, words_command};
ghost use Rattle.uvl_words.specs.Requests.{HasBudgetInRange, value_of};

use crate::budgets::{DEFAULT_BUDGET, LEAST_BUDGET, MOST_BUDGET, MOST_BUDGET_DIGITS};
use clap::error::ErrorKind;
use clap::{Arg, ArgAction, Command};
use std::alloc::{AllocError, Global};

/// What is written where the words are refused.
pub const USAGE_LINE: &str = "usage: uvl [--budget N] MODEL | uvl [--budget N] --demo N\n";

/// What the words ask for. Another form of the words, as `--demo N`, which is refused today, is one
/// variant more.
#[derive(Clone, Copy, Debug, PartialEq, Eq)]
pub enum Request<'a> {
    /// The model at the path, in a table of diagrams that may hold so many nodes.
    Model { path: &'a str, budget: u32 },
}

/// What the words ask for, or none where they are refused.
pub fn read_words<'a>(
    alloc: Global,
    words: &'a [&'a str],
) -> Result<Option<Request<'a>>, AllocError>
    ensures request { IfOk result (λ asked. option_map value_of asked ≡ request_of (map (λ word. word.now) words.now)) }
    ensures in_range { IfOk result (λ asked. IfSome asked HasBudgetInRange) }
{
    if has_lone_hyphen(words) {
        return Ok(None);
    }
    match command(alloc)?.try_get_matches_from(words) {
        Ok(matches) => Ok(request_with(matches.get_str("model"), matches.get_str("budget"))),
        Err(error) => match error.kind() {
            ErrorKind::OutOfMemory => Err(AllocError),
            _ => Ok(None),
        },
    }
}

/// Does a lone `-` stand in front of the first `--`? `clap` would take it as the model.
fn has_lone_hyphen(words: &[&str]) -> bool
    ensures lone { result ≡ has_lone_hyphen (map (λ word. word.now) words.now) }
    // For any other word that begins with `-` what `clap` does is known where the word is text.
    ensures texts { IsFalse result → AreTexts (map (λ word. word.now) words.now) }
{
    for word in words {
        if *word == "--" {
            return false;
        }
        if is_hyphen(word) {
            return true;
        }
    }
    false
}

/// Is the word a lone `-`?
fn is_hyphen(word: &str) -> bool
    ensures value { result ≡ bytes_eq word.now (codes "-") }
    ensures text { IsUtf8 word.now }
{
    word == "-"
}

/// The command by which `clap` reads the words.
fn command<'a>(alloc: Global) -> Result<Command<'a>, AllocError>
    ensures { IfOk result (λ command. app_of command ≡ words_command) }
{
    let budget = Arg::new(alloc, "budget")
        .long("budget")
        .action(ArgAction::Set);
    let model = Arg::new(alloc, "model").action(ArgAction::Set);
    Command::new(alloc, "uvl")
        .no_binary_name(true)
        .disable_help_flag(true)
        .disable_version_flag(true)
        .arg(budget)?
        .arg(model)
}

/// What a path and a value of the option ask for, where they are given.
fn request_with<'a>(path: Option<&'a str>, value: Option<&str>) -> Option<Request<'a>>
    ensures request { option_map value_of result
        ≡ request_with (option_map (λ word. word.now) path.entry) (option_map (λ word. word.now) value.entry) }
    ensures in_range { IfSome result HasBudgetInRange }
{
    let path = path.filter(|path| !path.is_empty())?;
    let budget = match value {
        Some(digits) => read_budget(digits)?,
        None => DEFAULT_BUDGET,
    };
    Some(Request::Model { path, budget })
}

/// The budget that a value of the option writes: one to eight digits, and a number in range.
fn read_budget(value: &str) -> Option<u32>
    ensures { result ≡ budget_of value.now }
{
    if !are_digits(value) || value.is_empty() || value.len() > MOST_BUDGET_DIGITS {
        return None;
    }
    match value.parse::<u32>() {
        Ok(budget) if (LEAST_BUDGET..=MOST_BUDGET).contains(&budget) => Some(budget),
        _ => None,
    }
}

fn are_digits(text: &str) -> bool
    ensures { result ≡ list_all is_ascii_digit text.now }
{
    text.bytes().all(|byte| byte.is_ascii_digit())
}
