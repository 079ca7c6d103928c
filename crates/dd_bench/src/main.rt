//! Does with a table of diagrams what is to be measured of it.
//!
//!     dd_bench conjoin VARIABLES BUDGET
//!     dd_bench hold VARIABLES COLLECTIONS
//!     dd_bench compare VARIABLES
//!
//! `conjoin` conjoins the clauses of a formula. The input has a line for each clause: numbers of variables, from 1
//! on, with a minus where the variable is to be no. The number of nodes of the conjunction is printed, and behind how
//! many clauses the table had been collected; or `refused` where there is none.
//!
//! `hold` makes all clauses over the variables, and collects so many times while all are held. `compare` asks each of
//! them whether it implies each one. The number of nodes is printed.
#![tactic(auto)]

mod clauses;
mod conjunction;
mod literal;
mod witness;

use clauses::table_of_clauses;
use conjunction::Conjunction;
use std::alloc::Global;
use std::{env, io};

fn main(rt: HostRuntime) -> io::Result<()> {
    let mut words = env::args(&rt)?;
    let way = words.nth(1);
    let variables = number_of(words.next());
    let number = number_of(words.next());
    match way {
        Some(way) if way.as_str() == "hold" => {
            print(rt, nodes_of_table(rt.alloc(), variables, false, number))
        }
        Some(way) if way.as_str() == "compare" => {
            print(rt, nodes_of_table(rt.alloc(), variables, true, 0))
        }
        _ => {
            let text = io::read_to_string(rt.alloc(), rt.reader())?;
            match conjoined(rt.alloc(), text.as_str(), variables, number) {
                Some((nodes, collections)) => println!(rt; "{nodes} {collections}"),
                None => println!(rt; "refused"),
            }
        }
    }
}

/// Prints a number of nodes, or that there is none.
fn print(rt: HostRuntime, nodes: Option<u32>) -> io::Result<()> {
    match nodes {
        Some(nodes) => println!(rt; "{nodes}"),
        None => println!(rt; "refused"),
    }
}

/// The number that a word says; 0 where it says none.
fn number_of(word: Option<String>) -> u32 {
    match word {
        Some(word) => word.as_str().parse::<u32>().unwrap_or(0),
        None => 0,
    }
}

/// How many nodes the table of all clauses over so many variables has behind so many collections, where it can be made.
fn nodes_of_table(alloc: Global, variables: u32, compares: bool, collections: u32) -> Option<u32> {
    let mut kernel = table_of_clauses(alloc, variables, compares)?;
    for _collection in 0..collections {
        kernel.collect();
    }
    Some(kernel.nodes())
}

/// How many nodes the conjunction of the clauses in the lines of a text has, where it can be made, and behind how
/// many of them the table had been collected.
fn conjoined(alloc: Global, text: &str, variables: u32, budget: u32) -> Option<(u32, u32)> {
    let mut conjunction = Conjunction::new(alloc, variables, budget)?;
    for line in text.lines() {
        for word in line.split_whitespace() {
            let (variable, value) = literal_in(word)?;
            conjunction = conjunction.with_literal(alloc, variable, value).ok()?;
        }
        conjunction = conjunction.with_clause(alloc).ok()?;
    }
    Some(conjunction.counts())
}

/// The variable that a word names, from 0 on, and its value.
fn literal_in(word: &str) -> Option<(u32, bool)> {
    let literal = word.parse::<i64>().ok()?;
    let number = u32::try_from(literal.unsigned_abs()).ok()?;
    Some((number.checked_sub(1)?, literal > 0))
}
