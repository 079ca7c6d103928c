//! Sets of files: loaded, cut into tokens, or resolved into models again and again.
use crate::tokens::tokens_of;
use std::alloc::Global;
use uvl_base::MOST_FILE_BYTES;
use uvl_imports::load;
use uvl_outside::{Fetched, Files};
use uvl_resolve::resolve;

/// What is done with a set of files.
#[derive(Clone, Copy, Debug, PartialEq, Eq)]
pub(crate) enum Preparing {
    /// It is loaded in each round, and the sets are counted.
    Load,
    /// Its files are read once, each is cut into tokens in each round, and the tokens are counted.
    Lex,
    /// It is loaded once and resolved in each round, and the models are counted.
    Resolve,
}

impl Preparing {
    pub(crate) fn named(word: &str) -> Option<Preparing> {
        match word {
            "load" => Some(Preparing::Load),
            "lex" => Some(Preparing::Lex),
            "resolve" => Some(Preparing::Resolve),
            _ => None,
        }
    }
}

/// How many sets, tokens or models there were in all rounds.
pub(crate) fn count_models<F: Files>(
    alloc: Global,
    files: &mut F,
    main: &str,
    preparing: Preparing,
    rounds: u32,
) -> u64 {
    match preparing {
        Preparing::Load => count_loaded(alloc, files, main, rounds),
        Preparing::Lex => count_lexed(alloc, files, main, rounds),
        Preparing::Resolve => count_resolved(alloc, files, main, rounds),
    }
}

fn count_loaded<F: Files>(alloc: Global, files: &mut F, main: &str, rounds: u32) -> u64 {
    let mut count = 0u64;
    for _round in 0..rounds {
        if load(alloc, files, main).is_ok() {
            count = count.saturating_add(1);
        }
    }
    count
}

fn count_lexed<F: Files>(alloc: Global, files: &mut F, main: &str, rounds: u32) -> u64 {
    let Some(texts) = texts_of(alloc, files, main) else {
        return 0;
    };
    let mut count = 0u64;
    for _round in 0..rounds {
        count = count.saturating_add(tokens_in_all(alloc, &texts));
    }
    count
}

/// How many tokens the texts have, each cut by itself.
fn tokens_in_all(alloc: Global, texts: &[String]) -> u64 {
    let mut count = 0u64;
    for text in texts {
        if let Some(tokens) = tokens_of(alloc, text.as_str()) {
            count = count.saturating_add(tokens.len() as u64);
        }
    }
    count
}

/// The texts of the files of a set, where it can be loaded.
fn texts_of<F: Files>(alloc: Global, files: &mut F, main: &str) -> Option<Vec<String>> {
    let set = load(alloc, files, main).ok()?;
    let mut texts = Vec::new(alloc);
    for loaded in set.files.as_slice() {
        let text = text_at(alloc, files, loaded.path.text())?;
        texts.push(text).ok()?;
    }
    Some(texts)
}

/// The text of the file at a path.
fn text_at<F: Files>(alloc: Global, files: &mut F, path: &str) -> Option<String> {
    let mut bytes = Vec::new(alloc);
    match files.fetch(alloc, path, MOST_FILE_BYTES, &mut bytes) {
        Ok(Fetched::Whole) => String::from_utf8(bytes).ok(),
        _ => None,
    }
}

fn count_resolved<F: Files>(alloc: Global, files: &mut F, main: &str, rounds: u32) -> u64 {
    let Ok(set) = load(alloc, files, main) else {
        return 0;
    };
    let mut count = 0u64;
    for _round in 0..rounds {
        if resolve(alloc, &set).is_ok() {
            count = count.saturating_add(1);
        }
    }
    count
}
