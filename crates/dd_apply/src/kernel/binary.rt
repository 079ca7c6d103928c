//! The binary operations: one recursion over the numbers of nodes, for all operations.
ghost use Rattle.std.specs.Prelude.{◌≡◌, ◌⊎◌, ◌+◌, ◌-◌, ◌*◌, ◌≤◌, ℕ, length, min, Bool};
ghost use Rattle.std.specs.Prelude.{IfOk, IfErr, OnErr, IfSome, IfNone};
ghost use Rattle.dd_apply.specs.Right.{IsRight, IsAsked};
ghost use Rattle.dd_store.specs.Size.{Function};
ghost use Rattle.dd_store.specs.Table.{Table as OneTable};

use crate::kernel::Kernel;
use crate::operation::Operation;
use crate::question::Question;
use dd_store::{Handle, NodeNo, OutOfMemory, Refusal, Var};
use std::alloc::Global;

impl Kernel {
    ghost use Rattle.dd_store.specs.Changes.{Keeps, Grows};
    ghost use Rattle.dd_store.specs.Exhausted.{value_at};
    ghost use Rattle.dd_store.specs.Follow.{IsThere};
    ghost use Rattle.dd_store.specs.Handles.{KeepsHandles, GainsHandle};
    ghost use Rattle.dd_store.specs.Table.{IsLive, IsVariable, IsAbove, row_of, top_of, value_of};
    ghost use Rattle.dd_apply.specs.Held.{IsHeld, IsCauseWithin, HasBoth, Trades, LosesBoth};
    ghost use Rattle.dd_apply.specs.Made.{StaysUnlessFull};
    ghost use Rattle.dd_apply.specs.Split.{fork};
    ghost use Rattle.dd_apply.specs.Truth.{applied};

    /// A handle whose value is what the operation makes of two nodes, by recursion on their ends (Bryant 1986). It goes
    /// down the levels, so it is never deeper in itself than those are many.
    pub(crate) fn combine(
        &mut self,
        alloc: Global,
        operation: Operation,
        a: NodeNo,
        b: NodeNo,
    ) -> Result<Handle, Refusal>
        requires a_held { IsHeld self.old a.0 }
        requires b_held { IsHeld self.old b.0 }
        ensures value { IfOk result (λ h.
            value_at self.new h ≡ applied operation (value_at self.old a.0) (value_at self.old b.0)) }
        ensures gained { IfOk result (GainsHandle self.old self.new) }
        ensures refused { OnErr result (KeepsHandles self.old self.new) }
        ensures keeps { Keeps self.old self.new }
        ensures stays { StaysUnlessFull self.old self.new
            (applied operation (value_at self.old a.0) (value_at self.old b.0)) }
        ensures cause { IfErr result (IsCauseWithin self.old self.new
            (applied operation (value_at self.old a.0) (value_at self.old b.0))
            (2 * (length self.old.order - min (top_of self.old a.0) (top_of self.old b.0) + 1))) }
    {
        let _order = self.order();
        if let Some((node, recalled)) = self.known(operation, a, b) {
            return Ok(self.hold_known(question_of(operation, a, b), node, recalled)?);
        }
        let var = self.tested(self.higher(a, b));
        let (low_a, high_a) = self.past(var, a);
        let (low_b, high_b) = self.past(var, b);
        let low = self.combine(alloc, operation, low_a, low_b)?;
        match self.combine(alloc, operation, high_a, high_b) {
            Ok(high) => self.join(alloc, question_of(operation, a, b), var, low, high),
            Err(refusal) => {
                self.release(low);
                Err(refusal)
            }
        }
    }

    /// What the operation makes of two nodes, where that is known without a recursion: it is a constant or one of them,
    /// or is kept; and whether it is kept. The cache is asked only of what an operation may meet more than once.
    fn known(&self, operation: Operation, a: NodeNo, b: NodeNo) -> Option<(NodeNo, bool)>
        requires a_held { IsHeld self.now a.0 }
        requires b_held { IsHeld self.now b.0 }
        ensures right { IfSome result (λ r. IsRight self.now (Question.Binary operation a b) r.0.0) }
        ensures nodes { IfNone result ((2 ≤ a.0) ⊎ (2 ≤ b.0)) }
    {
        let _order = self.order();
        match operation.settle(a, b) {
            Some(node) => Some((node, false)),
            None => self.recalled(question_of(operation, a, b)),
        }
    }

    /// The kept answer to a question, where it is worth asking, with the mark of what is kept.
    #[inline(always)]
    pub(crate) fn recalled(&self, question: Question) -> Option<(NodeNo, bool)>
        ensures { IfSome result (λ r. IsRight self.now question r.0.0) }
    {
        let node = self.recall(question)?;
        Some((node, true))
    }

    /// The kept answer to a question, where it is worth asking.
    #[inline(always)]
    pub(crate) fn recall(&self, question: Question) -> Option<NodeNo>
        ensures { IfSome result (λ r. IsRight self.now question r.0) }
    {
        if self.is_worth(question) {
            self.results.recall(question)
        } else {
            None
        }
    }

    /// A handle on the answer to a question. Where it was recalled, the cache learns that it was of use.
    pub(crate) fn hold_known(
        &mut self,
        question: Question,
        node: NodeNo,
        recalled: bool,
    ) -> Result<Handle, OutOfMemory>
        requires { IsThere (row_of self.old) node.0 }
        ensures place { IfOk result (λ h. h ≡ node.0) }
        ensures value { IfOk result (λ h. (a : ℕ → Bool) → value_of self.new h a ≡ value_of self.old node.0 a) }
        ensures gained { IfOk result (GainsHandle self.old self.new) }
        ensures refused { OnErr result (KeepsHandles self.old self.new) }
        ensures grows { Grows self.old self.new 0 }
    {
        if recalled {
            self.results.note(question);
        }
        self.hold(node)
    }

    /// Whether an operation may meet the nodes of a question more than once.
    fn is_worth(&self, question: Question) -> bool {
        match question {
            Question::Binary(_, a, b) | Question::Implies(a, b) => {
                self.is_shared(a) || self.is_shared(b)
            }
            Question::Ite(c, a, b) => {
                self.is_shared(c) || self.is_shared(a) || self.is_shared(b)
            }
        }
    }

    /// Keeps the answer to a question, where it is worth asking.
    #[inline(always)]
    pub(crate) fn keep(&mut self, alloc: Global, question: Question, answer: NodeNo)
        requires { IsRight self.old question answer.0 }
        ensures { self.new ≡ self.old }
    {
        if self.is_worth(question) {
            self.results.keep(alloc, question, answer);
        }
    }

    /// A handle whose value is that of `high` where the variable is true, and else that of `low`, in place of these
    /// two. It is kept as the answer to a question.
    pub(crate) fn join(
        &mut self,
        alloc: Global,
        question: Question,
        var: Var,
        low: Handle,
        high: Handle,
    ) -> Result<Handle, Refusal>
        requires variable { IsVariable self.old var.0 }
        requires both { HasBoth self.old low high }
        requires above_low { IsAbove self.old var.0 low }
        requires above_high { IsAbove self.old var.0 high }
        requires asked { IsAsked self.old question (fork var.0 (value_at self.old low) (value_at self.old high)) }
        ensures value { IfOk result (λ h.
            value_at self.new h ≡ fork var.0 (value_at self.old low) (value_at self.old high)) }
        ensures traded { IfOk result (Trades self.old self.new low high) }
        ensures lost { OnErr result (LosesBoth self.old self.new low high) }
        ensures keeps { Keeps self.old self.new }
        ensures stays { StaysUnlessFull self.old self.new
            (fork var.0 (value_at self.old low) (value_at self.old high)) }
        ensures cause { IfErr result (IsCauseWithin self.old self.new
            (fork var.0 (value_at self.old low) (value_at self.old high)) 0) }
    {
        let _order = self.order();
        let made = self.node(alloc, var, &low, &high);
        self.keep_made(alloc, question, &made);
        self.release(low);
        self.release(high);
        made
    }

    /// Keeps a handle that was made as the answer to a question.
    fn keep_made(&mut self, alloc: Global, question: Question, made: &Result<Handle, Refusal>)
        requires live { IfOk made.now (IsLive self.old) }
        requires right { IfOk made.now (IsRight self.old question) }
        ensures { self.new ≡ self.old }
    {
        if let Ok(handle) = made {
            let node = self.node_of(handle);
            self.keep(alloc, question, node);
        }
    }
}

/// The question of an operation and two nodes, which is one for both orders of them.
fn question_of(operation: Operation, a: NodeNo, b: NodeNo) -> Question
    ensures right { (t : OneTable) (r : ℕ) → IsRight t result r → IsRight t (Question.Binary operation a b) r }
    ensures asked { (t : OneTable) (f : Function) → IsAsked t (Question.Binary operation a b) f → IsAsked t result f }
{
    if a.0 <= b.0 {
        Question::Binary(operation, a, b)
    } else {
        Question::Binary(operation, b, a)
    }
}
