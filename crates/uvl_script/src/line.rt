//! The reading of a line.
ghost use Rattle.std.specs.Prelude.{◌≡◌, ◌⊎◌, chars, None, Some, Ok, Err, IfOk, IfErr, IfSome, IsOk, IsSome, []};
ghost use Rattle.uvl_script.specs.Lines.{without_cr, is_silent, words_of_line, words_of_ended, reading_of, reading_of_words};
ghost use Rattle.uvl_script.specs.Words.{words_of};
ghost use Rattle.uvl_script.specs.steps.Answers.{IsAnswered, HasWordsOf};

use crate::command::{Command, command_of};
use crate::fault::{LineFault, WordFault};
use crate::words::{after_separators, copy_words, has_words, split_word};
use std::alloc::Global;
use std::str;
use uvl_base::{MOST_LINE_BYTES, Name};

/// Reads a line, given without its LF; a CR at its end belongs to the line end. `None` is a line
/// that has no reply: it is blank, or its first character but spaces and tabs is `#`. Each fault
/// comes exactly where it is the line's first one; memory is wanted for the names of a command.
pub fn read_line(alloc: Global, line: &[u8]) -> Result<Option<Command>, LineFault>
    ensures answer { IfOk result (λ answer. reading_of line.now ≡ Ok answer) }
    ensures cause { IfErr result (λ fault. (reading_of line.now ≡ Err fault) ⊎ (fault ≡ LineFault.OutOfMemory)) }
    ensures refused { IfErr (reading_of line.now) (λ fault. result ≡ Err fault) }
    ensures silent { reading_of line.now ≡ Ok None → result ≡ Ok None }
{
    let bare = without_cr(line);
    if bare.len() > MOST_LINE_BYTES {
        return Err(LineFault::TooLong);
    }
    read_words(alloc, bare)
}

/// Reads a line without its line end, however long it is.
fn read_words(alloc: Global, line: &[u8]) -> Result<Option<Command>, LineFault>
    ensures { IsAnswered (reading_of_words (words_of_line line.now)) result }
{
    match split_word(text_of_words(line)?)? {
        Some((name, text)) => Ok(Some(command_of(alloc, name, text)?)),
        None => Ok(None),
    }
}

/// The words of a line, given without its LF; a CR at its end belongs to the line end. A line that
/// is blank, or whose first character but spaces and tabs is `#`, has none, and takes no memory. A
/// line has no longest length here.
pub fn split_words(alloc: Global, line: &[u8]) -> Result<Vec<Name>, WordFault>
    ensures words { IfOk result (λ words. words_of_ended line.now ≡ Ok words.items) }
    ensures cause { IfErr result (λ fault. (words_of_ended line.now ≡ Err fault) ⊎ (fault ≡ WordFault.OutOfMemory)) }
    ensures refused { IfErr (words_of_ended line.now) (λ fault. result ≡ Err fault) }
    ensures silent { words_of_ended line.now ≡ Ok [] → IsOk result }
{
    let text = text_of_words(without_cr(line))?;
    Ok(copy_words(alloc, text)?)
}

/// The text of a line without its line end, as far as it holds words: none where it has no reply.
fn text_of_words(line: &[u8]) -> Result<&str, WordFault>
    ensures words { IfOk result (λ text. HasWordsOf line.now text.now) }
    ensures cut { IfOk result (λ text. IsSome (words_of (chars text.now))) }
    ensures fault { IfErr result (λ fault. words_of_line line.now ≡ Err fault) }
{
    let Ok(text) = str::from_utf8(line) else {
        return Err(WordFault::BadUtf8);
    };
    if is_silent(text) {
        return Ok("");
    }
    if has_words(text) {
        Ok(text)
    } else {
        Err(WordFault::BadName)
    }
}

/// The line without the CR at its end, where it has one.
fn without_cr(line: &[u8]) -> &[u8]
    ensures { result.now ≡ without_cr line.now }
{
    let Some((last, front)) = line.split_last() else {
        return line;
    };
    if *last == b'\r' { front } else { line }
}

/// Whether a text is blank or a comment.
fn is_silent(text: &str) -> bool
    ensures { result ≡ is_silent (chars text.now) }
{
    match after_separators(text).as_bytes() {
        [] => true,
        [first, ..] => *first == b'#',
    }
}
