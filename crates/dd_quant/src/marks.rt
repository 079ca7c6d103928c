//! Marks: what a walk has found out of nodes.
ghost use Rattle.std.specs.Prelude.{◌≡◌, ◌≢◌, ℕ, ◌<◌, ◌^◌, Some, None, length, IfOk, OnOk};

use dd_store::{NodeNo, OutOfMemory};
use std::alloc::Global;
use std::marker::Model;

/// What a walk over nodes has found out of them. The room that it takes is used again by the next walk, without being
/// cleared: for many walks in a row, one value of this type is handed to each. No answer depends on what it was used for.
///
/// Contracts see what is found of each node, by the node's number.
#[derive(Drop)]
pub struct Marks {
    /// The latest mark of each node, by its number.
    marks: Vec<Mark>,
    /// The walk that goes on. The marks of earlier ones count no more.
    turn: u32,
}

/// What was found out of a node, and in which walk.
#[derive(Clone, Copy)]
struct Mark {
    turn: u32,
    is_possible: bool,
}

/// No mark of any walk.
const NO_MARK: Mark = Mark {
    turn: 0,
    is_possible: false,
};

impl Model for Marks {
    ghost use Rattle.std.specs.Prelude.{Bool, List, Option};
    ghost use Rattle.dd_quant.specs.steps.Marked.{marked_in, AreMarks};

    ghost Value = { List (Option Bool) };

    ghost view = { λ m. marked_in m.turn m.marks.items };

    ghost invariant = { λ m. AreMarks m.turn m.marks.items };
}

impl Marks {
    ghost use Rattle.dd_quant.specs.steps.Marked.{found_of};

    /// None, and no room yet.
    pub fn new(alloc: Global) -> Marks {
        Marks {
            marks: Vec::new(alloc),
            turn: 1,
        }
    }

    /// Begins a walk: no node is marked.
    pub(crate) fn begin(&mut self)
        ensures { (n : ℕ) → found_of self.new n ≡ None }
    {
        if self.turn == u32::MAX {
            self.marks.clear();
            self.turn = 1;
        } else {
            self.turn += 1;
        }
    }

    /// What was found out of a node in this walk.
    pub(crate) fn found(&self, node: NodeNo) -> Option<bool>
        ensures { result ≡ found_of self.now node.0 }
    {
        let mark = self.marks.get(node.0 as usize)?;
        if mark.turn == self.turn {
            Some(mark.is_possible)
        } else {
            None
        }
    }

    /// Marks a node, and answers what was found out of it.
    pub(crate) fn keep(&mut self, node: NodeNo, is_possible: bool) -> Result<bool, OutOfMemory>
        ensures answer { IfOk result (λ b. b ≡ is_possible) }
        ensures kept { OnOk result (found_of self.new node.0 ≡ Some is_possible) }
        ensures others { (n : ℕ) → n ≢ node.0 → found_of self.new n ≡ found_of self.old n }
    {
        let at = node.0 as usize;
        self.make_room(at)?;
        self.marks[at] = Mark {
            turn: self.turn,
            is_possible,
        };
        Ok(is_possible)
    }

    /// Makes room for a number.
    fn make_room(&mut self, at: usize) -> Result<(), OutOfMemory>
        requires { at < 2 ^ 32 }
        ensures room { OnOk result (at < length self.new) }
        ensures same { (n : ℕ) → found_of self.new n ≡ found_of self.old n }
    {
        if self.marks.len() <= at {
            self.marks.resize(at + 1, NO_MARK)?;
        }
        Ok(())
    }
}
