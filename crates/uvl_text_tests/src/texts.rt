//! Texts that are long or deep.
use std::alloc::{AllocError, Global};
use std::fmt::Write;

/// Pieces of a text, each so many times, one behind the other.
pub type Parts<'a> = &'a [(&'a str, usize)];

/// The text of its parts.
pub fn joined(alloc: Global, parts: Parts) -> Result<String, AllocError> {
    let mut text = String::new(alloc);
    for (part, times) in parts {
        for _ in 0..*times {
            text.push_str(part)?;
        }
    }
    Ok(text)
}

/// A chain of features `F1`, `F2` and so on, each mandatory below the one in front. The last line
/// begins with a word.
pub fn chain(alloc: Global, depth: usize, word: &str) -> Result<String, AllocError> {
    let mut text = String::from_str(alloc, "features\n\t")?;
    for level in 1..depth {
        let tabs = joined(alloc, &[("\t\t", level)])?;
        let tabs = tabs.as_str();
        write!(text, "F{level}\n{tabs}mandatory\n{tabs}\t")?;
    }
    write!(text, "{word}F{depth}\n")?;
    Ok(text)
}
