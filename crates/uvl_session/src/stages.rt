//! The decisions of one session.
ghost use Rattle.std.specs.Prelude.{◌≡◌, [], ◌∷◌, ◌++◌, OnOk, OnErr};

use crate::decision::Decision;
use dd_store::OutOfMemory;
use std::alloc::Global;
use std::marker::Model;

/// The decisions of one session, oldest first: those that are closed, and behind them those that stand. Contracts see two
/// lists.
#[derive(Debug, Drop)]
pub struct Stages {
    decisions: Vec<Decision>,
    /// How many are closed. So closing takes no memory.
    closed: usize,
}

impl Model for Stages {
    ghost use Rattle.std.specs.Prelude.{◌≤◌, length, take, drop};
    ghost use Rattle.uvl_session.specs.Numbered.{Numbered};

    ghost Value = { Numbered };

    ghost view = { λ s. record { closed = take s.closed s.decisions.items; standing = drop s.closed s.decisions.items } };

    ghost invariant = { λ s. s.closed ≤ length s.decisions.items };
}

impl Stages {
    ghost use Rattle.uvl_session.specs.Numbered.{all_of};

    /// No decision. It takes no memory.
    pub(crate) fn new(alloc: Global) -> Stages
        ensures { result ≡ record { closed = []; standing = [] } }
    {
        Stages {
            decisions: Vec::new(alloc),
            closed: 0,
        }
    }

    /// The closed ones.
    pub fn closed(&self) -> &[Decision]
        ensures { result.now ≡ self.now.closed }
    {
        &self.decisions[..self.closed]
    }

    /// The standing ones.
    pub fn standing(&self) -> &[Decision]
        ensures { result.now ≡ self.now.standing }
    {
        &self.decisions[self.closed..]
    }

    /// All of them.
    pub fn all(&self) -> &[Decision]
        ensures { result.now ≡ all_of self.now }
    {
        &self.decisions
    }

    /// Closes those that stand.
    pub(crate) fn close(&mut self)
        ensures { self.new ≡ record { closed = all_of self.old; standing = [] } }
    {
        self.closed = self.decisions.len();
    }

    /// Puts one behind those that stand.
    pub(crate) fn push(&mut self, decision: Decision) -> Result<(), OutOfMemory>
        ensures kept { OnOk result
            (self.new ≡ record { closed = self.old.closed; standing = self.old.standing ++ decision ∷ [] }) }
        ensures refused { OnErr result (self.new ≡ self.old) }
    {
        self.decisions.push(decision)?;
        Ok(())
    }
}
