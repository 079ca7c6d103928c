//! A token at which a named fault is met, or may be.
use uvl_base::FaultKind;

/// The first token at which a named fault is met, or would be if the token could stand there.
#[derive(Clone, Copy, Debug, PartialEq, Eq)]
pub struct Candidate {
    /// How many tokens are in front of it.
    pub index: usize,
    /// What is wrong there.
    pub met: Met,
}

/// What is wrong at a token.
#[derive(Clone, Copy, Debug, PartialEq, Eq)]
pub struct Met {
    /// The fault where some file has these tokens up to and with it.
    pub alive: FaultKind,
    /// The fault where no file has, if it is a named one.
    pub dead: Option<FaultKind>,
}
