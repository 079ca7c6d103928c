//! Tests of the public calls on texts: a file for each crate under test, as tables of rows, and what a
//! call answers where there is memory. What makes texts and their tokens serves
//! `uvl_tests` too.
#![tactic(auto)]

#[cfg(test)]
mod ast;
#[cfg(test)]
mod base;
#[cfg(test)]
mod imports;
#[cfg(test)]
mod lexer;
#[cfg(test)]
mod lines;
#[cfg(test)]
mod outside;
#[cfg(test)]
mod parser;
#[cfg(test)]
mod printing;
#[cfg(test)]
mod profile;
#[cfg(test)]
mod script;
pub mod texts;
pub mod tokens;
#[cfg(test)]
mod words;
