//! Tests of the public calls on models and diagrams, and of `run`: a file for each crate under test, as
//! tables of rows, and what a call answers where there is memory.
#![tactic(auto)]

#[cfg(test)]
mod analyses;
#[cfg(test)]
mod compile;
#[cfg(test)]
mod model;
#[cfg(test)]
mod resolve;
#[cfg(test)]
mod run;
#[cfg(test)]
mod texts;
