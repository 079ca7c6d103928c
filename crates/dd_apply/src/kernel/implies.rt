//! Implication: a walk over two nodes that makes none.
ghost use Rattle.std.specs.Prelude.{◌≡◌, ◌≢◌, ◌⊎◌, ◌↔◌, ◌≤◌, IsTrue, IfOk, IsOk, IfSome, IfNone};
ghost use Rattle.dd_apply.specs.Settled.{SettlesImplication};

use crate::kernel::Kernel;
use crate::question::Question;
use dd_store::{Handle, NodeNo, Refusal};
use std::alloc::Global;

impl Kernel {
    ghost use Rattle.dd_store.specs.Table.{IsLive};
    ghost use Rattle.dd_apply.specs.Held.{IsHeld};
    ghost use Rattle.dd_apply.specs.Right.{DoesImply};

    /// Whether every assignment that makes `a` true makes `b` true. It makes no node, and is never refused: memory is
    /// taken for the cache alone, which can do without.
    pub fn implies(&mut self, alloc: Global, a: &Handle, b: &Handle) -> Result<bool, Refusal>
        requires a_live { IsLive self.old a.now }
        requires b_live { IsLive self.old b.now }
        ensures value { IfOk result (λ yes. IsTrue yes ↔ DoesImply self.old a.now b.now) }
        ensures answered { IsOk result }
        ensures same { self.new ≡ self.old }
    {
        let a = self.node_of(a);
        let b = self.node_of(b);
        Ok(self.does_imply(alloc, a, b))
    }

    /// The same of two nodes. It is never deeper in itself than there are levels.
    fn does_imply(&mut self, alloc: Global, a: NodeNo, b: NodeNo) -> bool
        requires a_held { IsHeld self.old a.0 }
        requires b_held { IsHeld self.old b.0 }
        ensures value { IsTrue result ↔ DoesImply self.old a.0 b.0 }
        ensures same { self.new ≡ self.old }
    {
        let _order = self.order();
        if let Some(answer) = self.known_implication(a, b) {
            return answer;
        }
        let var = self.tested(self.higher(a, b));
        let (low_a, high_a) = self.past(var, a);
        let (low_b, high_b) = self.past(var, b);
        if !self.does_imply(alloc, low_a, low_b) {
            return self.keep_implication(alloc, a, b, false);
        }
        let answer = self.does_imply(alloc, high_a, high_b);
        self.keep_implication(alloc, a, b, answer)
    }

    /// Whether one node implies another, where that is known without a walk: one of them is a constant, they are one, or
    /// it is kept.
    fn known_implication(&self, a: NodeNo, b: NodeNo) -> Option<bool>
        requires a_held { IsHeld self.now a.0 }
        requires b_held { IsHeld self.now b.0 }
        ensures value { IfSome result (λ yes. IsTrue yes ↔ DoesImply self.now a.0 b.0) }
        ensures nodes { IfNone result ((2 ≤ a.0) ⊎ (2 ≤ b.0)) }
    {
        let _order = self.order();
        if let Some(answer) = settle_implication(a, b) {
            return Some(answer);
        }
        let kept = self.recall(Question::Implies(a, b))?;
        Some(kept == NodeNo::YES)
    }

    /// Keeps and answers whether one node implies another.
    fn keep_implication(&mut self, alloc: Global, a: NodeNo, b: NodeNo, answer: bool) -> bool
        requires a_held { IsHeld self.old a.0 }
        requires b_held { IsHeld self.old b.0 }
        requires right { IsTrue answer ↔ DoesImply self.old a.0 b.0 }
        ensures answer { result ≡ answer }
        ensures same { self.new ≡ self.old }
    {
        let _order = self.order();
        self.keep(alloc, Question::Implies(a, b), NodeNo(u32::from(answer)));
        answer
    }
}

/// Whether one node implies another, where that is known for every table.
fn settle_implication(a: NodeNo, b: NodeNo) -> Option<bool>
    ensures settled { IfSome result (SettlesImplication a.0 b.0) }
    ensures nodes { IfNone result ((2 ≤ a.0) ⊎ (2 ≤ b.0)) }
{
    if a == b || a == NodeNo::NO || b == NodeNo::YES {
        Some(true)
    } else if a == NodeNo::YES || b == NodeNo::NO {
        Some(false)
    } else {
        None
    }
}
