//! Does again and again what parts of the program do with a model, as a measure of their speed.
//!
//!     uvl_bench tokens validate|lex|parse ROUNDS
//!     uvl_bench products compile|value|rows ROUNDS
//!     uvl_bench sets load|lex|resolve ROUNDS MAIN
//!
//! The text is the input, and of a set that of the files, of which the main one is at the path MAIN. What was read, made or
//! found in all rounds is counted, and the count is printed.
#![tactic(auto)]

mod products;
mod sets;
mod tokens;

use products::{Answering, count_products};
use sets::{Preparing, count_models};
use std::alloc::Global;
use std::{env, io};
use tokens::{Reading, count_tokens};
use uvl_outside::HostFiles;

fn main(rt: HostRuntime) -> io::Result<()> {
    let text = io::read_to_string(rt.alloc(), rt.reader())?;
    let mut words = env::args(&rt)?;
    let part = words.nth(1);
    let way = words.next();
    let rounds = rounds_of(words.next());
    let main = words.next();
    let count = match main {
        Some(main) => count_of_set(rt, part, way, rounds, &main),
        None => count_of_text(rt.alloc(), text.as_str(), part, way, rounds),
    };
    match count {
        Some(count) => println!(rt; "{count}"),
        None => println!(rt; "nothing is measured"),
    }
}

/// How many rounds a word asks for; one where it is no number.
fn rounds_of(word: Option<String>) -> u32 {
    match word {
        Some(word) => word.as_str().parse::<u32>().unwrap_or(1),
        None => 1,
    }
}

/// What was counted of a text, where the words name a part and a way, it is a model where one is asked for,
/// and there is memory.
fn count_of_text(
    alloc: Global,
    text: &str,
    part: Option<String>,
    way: Option<String>,
    rounds: u32,
) -> Option<u64> {
    let part = part?;
    let way = way?;
    match part.as_str() {
        "tokens" => Some(count_tokens(alloc, text, Reading::named(way.as_str())?, rounds)),
        "products" => count_products(alloc, text, Answering::named(way.as_str())?, rounds),
        _ => None,
    }
}

/// What was counted of the set with a main file, where the words name a way.
fn count_of_set(
    rt: HostRuntime,
    part: Option<String>,
    way: Option<String>,
    rounds: u32,
    main: &String,
) -> Option<u64> {
    let part = part?;
    let way = way?;
    let mut files = HostFiles::new(rt);
    match part.as_str() {
        "sets" => {
            let preparing = Preparing::named(way.as_str())?;
            Some(count_models(rt.alloc(), &mut files, main.as_str(), preparing, rounds))
        }
        _ => None,
    }
}
