//! The choice between two nodes by a third: a recursion over the numbers of nodes.
ghost use Rattle.std.specs.Prelude.{◌≡◌, ◌+◌, ◌-◌, ◌*◌, ◌≤◌, length, min, IfOk, IfErr, OnErr, IfSome, IfNone};
ghost use Rattle.dd_apply.specs.Settled.{SettlesChoice};

use crate::kernel::Kernel;
use crate::question::Question;
use dd_store::{Handle, NodeNo, Refusal};
use std::alloc::Global;

impl Kernel {
    ghost use Rattle.dd_store.specs.Changes.{Keeps};
    ghost use Rattle.dd_store.specs.Exhausted.{value_at};
    ghost use Rattle.dd_store.specs.Handles.{KeepsHandles, GainsHandle};
    ghost use Rattle.dd_store.specs.Table.{top_of};
    ghost use Rattle.dd_apply.specs.Held.{IsHeld, IsCauseWithin};
    ghost use Rattle.dd_apply.specs.Made.{StaysUnlessFull};
    ghost use Rattle.dd_apply.specs.Right.{IsRight};
    ghost use Rattle.dd_apply.specs.Truth.{chosen};

    /// A handle whose value is that of the node a where that of c is true, and else that of b, by recursion on their
    /// ends (Bryant 1986). It is never deeper in itself than there are levels.
    pub(crate) fn choose(
        &mut self,
        alloc: Global,
        c: NodeNo,
        a: NodeNo,
        b: NodeNo,
    ) -> Result<Handle, Refusal>
        requires c_held { IsHeld self.old c.0 }
        requires a_held { IsHeld self.old a.0 }
        requires b_held { IsHeld self.old b.0 }
        ensures value { IfOk result (λ h.
            value_at self.new h ≡ chosen (value_at self.old c.0) (value_at self.old a.0) (value_at self.old b.0)) }
        ensures gained { IfOk result (GainsHandle self.old self.new) }
        ensures refused { OnErr result (KeepsHandles self.old self.new) }
        ensures keeps { Keeps self.old self.new }
        ensures stays { StaysUnlessFull self.old self.new
            (chosen (value_at self.old c.0) (value_at self.old a.0) (value_at self.old b.0)) }
        ensures cause { IfErr result (IsCauseWithin self.old self.new
            (chosen (value_at self.old c.0) (value_at self.old a.0) (value_at self.old b.0))
            (let top = min (top_of self.old c.0) (min (top_of self.old a.0) (top_of self.old b.0)) in
            2 * (length self.old.order - top + 1))) }
    {
        let _order = self.order();
        if let Some((node, recalled)) = self.known_choice(c, a, b) {
            return Ok(self.hold_known(Question::Ite(c, a, b), node, recalled)?);
        }
        let lower = self.higher(a, b);
        let var = self.tested(self.higher(c, lower));
        let (low_c, high_c) = self.past(var, c);
        let (low_a, high_a) = self.past(var, a);
        let (low_b, high_b) = self.past(var, b);
        let low = self.choose(alloc, low_c, low_a, low_b)?;
        match self.choose(alloc, high_c, high_a, high_b) {
            Ok(high) => self.join(alloc, Question::Ite(c, a, b), var, low, high),
            Err(refusal) => {
                self.release(low);
                Err(refusal)
            }
        }
    }

    /// What is chosen of two nodes, where that is known without a recursion: it is one of the three, or is kept; and
    /// whether it is kept.
    fn known_choice(&self, c: NodeNo, a: NodeNo, b: NodeNo) -> Option<(NodeNo, bool)>
        requires c_held { IsHeld self.now c.0 }
        requires a_held { IsHeld self.now a.0 }
        requires b_held { IsHeld self.now b.0 }
        ensures right { IfSome result (λ r. IsRight self.now (Question.Ite c a b) r.0.0) }
        ensures node { IfNone result (2 ≤ c.0) }
    {
        let _order = self.order();
        match settle_choice(c, a, b) {
            Some(node) => Some((node, false)),
            None => self.recalled(Question::Ite(c, a, b)),
        }
    }
}

/// What is chosen of two nodes by a third, where that is one of them for every table.
fn settle_choice(c: NodeNo, a: NodeNo, b: NodeNo) -> Option<NodeNo>
    ensures settled { IfSome result (λ r. SettlesChoice c.0 a.0 b.0 r.0) }
    ensures node { IfNone result (2 ≤ c.0) }
{
    if a == b || c == NodeNo::YES {
        Some(a)
    } else if c == NodeNo::NO {
        Some(b)
    } else if a == NodeNo::YES && b == NodeNo::NO {
        Some(c)
    } else {
        None
    }
}
