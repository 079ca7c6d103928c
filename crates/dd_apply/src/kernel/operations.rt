//! The operations on handles.
ghost use Rattle.std.specs.Prelude.{◌≡◌, ℕ, Bool, not, ◌&&◌, ◌||◌, if◌then◌else◌, IfOk, IfErr, OnErr};

use crate::kernel::Kernel;
use crate::operation::Operation;
use dd_store::{Handle, NodeNo, Refusal};
use std::alloc::Global;

impl Kernel {
    ghost use Rattle.dd_store.specs.Changes.{Keeps};
    ghost use Rattle.dd_store.specs.Exhausted.{value_at};
    ghost use Rattle.dd_store.specs.Handles.{KeepsHandles, GainsHandle};
    ghost use Rattle.dd_store.specs.Table.{IsLive, value_of};
    ghost use Rattle.dd_apply.specs.Cause.{IsCause};
    ghost use Rattle.dd_apply.specs.Held.{IsHeld};
    ghost use Rattle.dd_apply.specs.Made.{StaysUnlessFull};
    ghost use Rattle.dd_apply.specs.Truth.{table, applied, chosen, opposite};

    /// A handle whose value is true where both values are.
    pub fn and(&mut self, alloc: Global, a: &Handle, b: &Handle) -> Result<Handle, Refusal>
        requires a_live { IsLive self.old a.now }
        requires b_live { IsLive self.old b.now }
        ensures value { IfOk result (λ h. (x : ℕ → Bool) →
            value_of self.new h x ≡ (value_of self.old a.now x && value_of self.old b.now x)) }
        ensures gained { IfOk result (GainsHandle self.old self.new) }
        ensures refused { OnErr result (KeepsHandles self.old self.new) }
        ensures keeps { Keeps self.old self.new }
        ensures stays { StaysUnlessFull self.old self.new
            (applied Operation.And (value_at self.old a.now) (value_at self.old b.now)) }
        ensures cause { IfErr result (IsCause self.old self.new
            (applied Operation.And (value_at self.old a.now) (value_at self.old b.now))) }
    {
        let (a, b) = (self.node_of(a), self.node_of(b));
        self.operate(alloc, Operation::And, a, b)
    }

    /// A handle whose value is true where one of the values is.
    pub fn or(&mut self, alloc: Global, a: &Handle, b: &Handle) -> Result<Handle, Refusal>
        requires a_live { IsLive self.old a.now }
        requires b_live { IsLive self.old b.now }
        ensures value { IfOk result (λ h. (x : ℕ → Bool) →
            value_of self.new h x ≡ (value_of self.old a.now x || value_of self.old b.now x)) }
        ensures gained { IfOk result (GainsHandle self.old self.new) }
        ensures refused { OnErr result (KeepsHandles self.old self.new) }
        ensures keeps { Keeps self.old self.new }
        ensures stays { StaysUnlessFull self.old self.new
            (applied Operation.Or (value_at self.old a.now) (value_at self.old b.now)) }
        ensures cause { IfErr result (IsCause self.old self.new
            (applied Operation.Or (value_at self.old a.now) (value_at self.old b.now))) }
    {
        let (a, b) = (self.node_of(a), self.node_of(b));
        self.operate(alloc, Operation::Or, a, b)
    }

    /// A handle whose value is true where the values differ.
    pub fn xor(&mut self, alloc: Global, a: &Handle, b: &Handle) -> Result<Handle, Refusal>
        requires a_live { IsLive self.old a.now }
        requires b_live { IsLive self.old b.now }
        ensures value { IfOk result (λ h. (x : ℕ → Bool) →
            let p = value_of self.old a.now x in let q = value_of self.old b.now x in
            value_of self.new h x ≡ (if p then not q else q)) }
        ensures gained { IfOk result (GainsHandle self.old self.new) }
        ensures refused { OnErr result (KeepsHandles self.old self.new) }
        ensures keeps { Keeps self.old self.new }
        ensures stays { StaysUnlessFull self.old self.new
            (applied Operation.Xor (value_at self.old a.now) (value_at self.old b.now)) }
        ensures cause { IfErr result (IsCause self.old self.new
            (applied Operation.Xor (value_at self.old a.now) (value_at self.old b.now))) }
    {
        let (a, b) = (self.node_of(a), self.node_of(b));
        self.operate(alloc, Operation::Xor, a, b)
    }

    /// A handle whose value is true where the value isn't.
    pub fn not(&mut self, alloc: Global, a: &Handle) -> Result<Handle, Refusal>
        requires { IsLive self.old a.now }
        ensures value { IfOk result (λ h. (x : ℕ → Bool) → value_of self.new h x ≡ not (value_of self.old a.now x)) }
        ensures gained { IfOk result (GainsHandle self.old self.new) }
        ensures refused { OnErr result (KeepsHandles self.old self.new) }
        ensures keeps { Keeps self.old self.new }
        ensures stays { StaysUnlessFull self.old self.new
            (opposite (value_at self.old a.now)) }
        ensures cause { IfErr result (IsCause self.old self.new (opposite (value_at self.old a.now))) }
    {
        let _order = self.order();
        let a = self.node_of(a);
        self.operate(alloc, Operation::Xor, a, NodeNo::YES)
    }

    /// A handle whose value is that of `a` where the condition's is true, and else that of `b`.
    pub fn ite(
        &mut self,
        alloc: Global,
        condition: &Handle,
        a: &Handle,
        b: &Handle,
    ) -> Result<Handle, Refusal>
        requires condition_live { IsLive self.old condition.now }
        requires a_live { IsLive self.old a.now }
        requires b_live { IsLive self.old b.now }
        ensures value { IfOk result (λ h. (x : ℕ → Bool) → value_of self.new h x ≡
            (if value_of self.old condition.now x then value_of self.old a.now x else value_of self.old b.now x)) }
        ensures gained { IfOk result (GainsHandle self.old self.new) }
        ensures refused { OnErr result (KeepsHandles self.old self.new) }
        ensures keeps { Keeps self.old self.new }
        ensures stays { StaysUnlessFull self.old self.new
            (chosen (value_at self.old condition.now) (value_at self.old a.now) (value_at self.old b.now)) }
        ensures cause { IfErr result (IsCause self.old self.new
            (chosen (value_at self.old condition.now) (value_at self.old a.now) (value_at self.old b.now))) }
    {
        let _order = self.order();
        let condition = self.node_of(condition);
        let a = self.node_of(a);
        let b = self.node_of(b);
        self.choose(alloc, condition, a, b)
    }

    /// A handle whose value is what an operation makes of two nodes.
    fn operate(
        &mut self,
        alloc: Global,
        operation: Operation,
        a: NodeNo,
        b: NodeNo,
    ) -> Result<Handle, Refusal>
        requires a_held { IsHeld self.old a.0 }
        requires b_held { IsHeld self.old b.0 }
        ensures value { IfOk result (λ h. (x : ℕ → Bool) →
            value_of self.new h x ≡ table operation (value_of self.old a.0 x) (value_of self.old b.0 x)) }
        ensures gained { IfOk result (GainsHandle self.old self.new) }
        ensures refused { OnErr result (KeepsHandles self.old self.new) }
        ensures keeps { Keeps self.old self.new }
        ensures stays { StaysUnlessFull self.old self.new
            (applied operation (value_at self.old a.0) (value_at self.old b.0)) }
        ensures cause { IfErr result (IsCause self.old self.new
            (applied operation (value_at self.old a.0) (value_at self.old b.0))) }
    {
        let _order = self.order();
        self.combine(alloc, operation, a, b)
    }
}
