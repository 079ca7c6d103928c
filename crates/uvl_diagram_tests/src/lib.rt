//! Tests of the table of diagrams, its operations, its groups and the questions about values: what they make against
//! plain lists of truth values, full tables, the limits, and what a call answers where there is memory.
#![tactic(auto)]

#[cfg(test)]
mod count;
#[cfg(test)]
mod kernel;
#[cfg(test)]
mod lists;
#[cfg(test)]
mod questions;
#[cfg(test)]
mod store;
