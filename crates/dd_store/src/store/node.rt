//! Nodes: the one that has a row is found, or made where the budget leaves room, if need be behind a collection.
ghost use Rattle.std.specs.Prelude.{◌≡◌, ◌≢◌, ℕ, ◌<◌, Bool, if◌then◌else◌};
ghost use Rattle.std.specs.Prelude.{Some, IfOk, OnErr, IfErr, IfSome, IfNone, IsSome};

use crate::handle::Handle;
use crate::refusal::{OutOfMemory, Refusal};
use crate::room::count_up_to;
use crate::row::{NodeNo, Row, Var};
use crate::store::Store;
use std::alloc::{AllocError, Global};

impl Store {
    ghost use Rattle.dd_store.specs.Follow.{IsThere, end_of};
    ghost use Rattle.dd_store.specs.Table.{IsSound, IsLive, IsVariable, IsAbove, HasEnds, row_of, row_with};
    ghost use Rattle.dd_store.specs.Table.{node_count, handle_count, value_of};
    ghost use Rattle.dd_store.specs.Changes.{Keeps, Grows, AddsRow, IsFullFor, AreKeptAlive};
    ghost use Rattle.dd_store.specs.Changes.{KeepsRows, IsCollected, IsCollectedBut};
    ghost use Rattle.dd_store.specs.Exhausted.{IsCauseFor, asked_by};
    ghost use Rattle.dd_store.specs.Handles.{KeepsHandles, GainsHandle};

    /// A handle whose value is that of `high` where `var` is true, and else that of `low`. It stands on the end that
    /// both have in common, on the node that is there already, or on a new node.
    ///
    /// Where a new node is wanted and the table holds as many as its budget, it collects as `collect` does. Where that
    /// frees nothing, the answer is `OverBudget`.
    #[inline(always)]
    pub fn node(
        &mut self,
        alloc: Global,
        var: Var,
        low: &Handle,
        high: &Handle,
    ) -> Result<Handle, Refusal>
        requires variable { IsVariable self.old var.0 }
        requires low_live { IsLive self.old low.now }
        requires high_live { IsLive self.old high.now }
        requires above_low { IsAbove self.old var.0 low.now }
        requires above_high { IsAbove self.old var.0 high.now }

        // The answered handle, and where it stands.
        ensures value { IfOk result (λ h. (a : ℕ → Bool) →
            value_of self.new h a ≡ (if a var.0 then value_of self.old high.now a else value_of self.old low.now a)) }
        ensures common_end { IfOk result (λ h. low.now ≡ high.now → h ≡ low.now) }
        ensures row { IfOk result (λ h. low.now ≢ high.now →
            row_of self.new h ≡ Some (row_with var.0 low.now high.now)) }

        // The live handles, and what stays.
        ensures gained { IfOk result (GainsHandle self.old self.new) }
        ensures refused { OnErr result (KeepsHandles self.old self.new) }
        ensures grows { Grows self.old self.new 1 }

        // Where the table has room or the node, no node leaves; at most the asked node is new, and none at a refusal.
        ensures stays { ¬ IsFullFor self.old (row_with var.0 low.now high.now) → KeepsRows self.old self.new }
        ensures others { ¬ IsFullFor self.old (row_with var.0 low.now high.now) →
            IfOk result (λ h. (n : ℕ) → n ≢ h → row_of self.new n ≡ row_of self.old n) }
        ensures no_more { ¬ IsFullFor self.old (row_with var.0 low.now high.now) →
            OnErr result (Grows self.old self.new 0) }

        // Else exactly what isn't kept alive leaves.
        ensures collected { IsFullFor self.old (row_with var.0 low.now high.now) →
            IfOk result (IsCollectedBut self.old self.new) }
        ensures collected_no_more { IsFullFor self.old (row_with var.0 low.now high.now) →
            OnErr result (IsCollected self.old self.new) }

        // Over the budget exactly where the table is full, doesn't have the node, and each node is kept alive.
        ensures cause { IfErr result (IsCauseFor self.old self.new (row_with var.0 low.now high.now)) }
        ensures over_budget { IsFullFor self.old (row_with var.0 low.now high.now) → AreKeptAlive self.old →
            result ≡ Err (Refusal.OverBudget self.old.budget (handle_count self.old)) }
    {
        let _whole = &self.slots;
        let row = Row {
            var,
            low: low.node,
            high: high.node,
        };
        match self.place(row) {
            Some(node) => Ok(self.hold(node)?),
            None => self.insert(alloc, row),
        }
    }

    /// Where a handle for the row stands without a new node: on the end that both have in common, or on the node that
    /// is there.
    fn place(&self, row: Row) -> Option<NodeNo>
        requires variable { IsVariable self.now row.var.0 }
        requires low_live { IsLive self.now row.low.0 }
        ensures there { IfSome result (λ k. IsThere (row_of self.now) k.0) }
        ensures value { IfSome result (λ k. (a : ℕ → Bool) → value_of self.now k.0 a ≡ asked_by self.now row a) }
        ensures common_end { IfSome result (λ k. row.low.0 ≡ row.high.0 → k.0 ≡ row.low.0) }
        ensures row { IfSome result (λ k. row.low.0 ≢ row.high.0 → row_of self.now k.0 ≡ Some row) }
        ensures not_full { IsSome result → ¬ IsFullFor self.now row }
        ensures differ { IfNone result (row.low.0 ≢ row.high.0) }
        ensures absent { IfNone result ((n : ℕ) → row_of self.now n ≢ Some row) }
        ensures sound { IsSound self.now }
    {
        if row.low == row.high {
            let _whole = &self.slots;
            return Some(row.low);
        }
        self.find(row)
    }

    /// The node that has a row, where there is one. It takes no memory and collects nothing.
    pub fn find(&self, row: Row) -> Option<NodeNo>
        requires { IsVariable self.now row.var.0 }
        ensures found { IfSome result (λ k. HasEnds self.now k.0 row.var.0 row.low.0 row.high.0) }
        ensures absent { IfNone result ((n : ℕ) → row_of self.now n ≢ Some row) }
        ensures sound { IsSound self.now }
    {
        self.slots.find(row)
    }

    /// A handle on a new node with this row, which no node has. A full table is collected before.
    fn insert(&mut self, alloc: Global, row: Row) -> Result<Handle, Refusal>
        requires variable { IsVariable self.old row.var.0 }
        requires ends_live { (b : Bool) → IsLive self.old (end_of row b) }
        requires above { (b : Bool) → IsAbove self.old row.var.0 (end_of row b) }
        requires differ { row.low.0 ≢ row.high.0 }
        requires absent { (n : ℕ) → row_of self.old n ≢ Some row }
        ensures row { IfOk result (λ h. row_of self.new h ≡ Some row) }
        ensures value { IfOk result (λ h. (a : ℕ → Bool) → value_of self.new h a ≡ asked_by self.old row a) }
        ensures gained { IfOk result (GainsHandle self.old self.new) }
        ensures refused { OnErr result (KeepsHandles self.old self.new) }
        ensures grows { Grows self.old self.new 1 }
        ensures stays { node_count self.old ≢ self.old.budget → KeepsRows self.old self.new }
        ensures others { node_count self.old ≢ self.old.budget →
            IfOk result (λ h. (n : ℕ) → n ≢ h → row_of self.new n ≡ row_of self.old n) }
        ensures no_more { node_count self.old ≢ self.old.budget → OnErr result (Grows self.old self.new 0) }
        ensures collected { node_count self.old ≡ self.old.budget → IfOk result (IsCollectedBut self.old self.new) }
        ensures collected_no_more { node_count self.old ≡ self.old.budget →
            OnErr result (IsCollected self.old self.new) }
        ensures cause { IfErr result (IsCauseFor self.old self.new row) }
        ensures over_budget { node_count self.old ≡ self.old.budget → AreKeptAlive self.old →
            result ≡ Err (Refusal.OverBudget self.old.budget (handle_count self.old)) }
    {
        if self.nodes() == self.budget {
            self.collect_and_add(alloc, row)
        } else {
            Ok(self.add(alloc, row)?)
        }
    }

    /// A handle on a new node with this row, which no node has, in a full table, which is collected before.
    #[cold]
    #[inline(never)]
    fn collect_and_add(&mut self, alloc: Global, row: Row) -> Result<Handle, Refusal>
        requires variable { IsVariable self.old row.var.0 }
        requires ends_live { (b : Bool) → IsLive self.old (end_of row b) }
        requires above { (b : Bool) → IsAbove self.old row.var.0 (end_of row b) }
        requires differ { row.low.0 ≢ row.high.0 }
        requires absent { (n : ℕ) → row_of self.old n ≢ Some row }
        requires full { node_count self.old ≡ self.old.budget }
        ensures row { IfOk result (λ h. row_of self.new h ≡ Some row) }
        ensures value { IfOk result (λ h. (a : ℕ → Bool) → value_of self.new h a ≡ asked_by self.old row a) }
        ensures gained { IfOk result (GainsHandle self.old self.new) }
        ensures refused { OnErr result (KeepsHandles self.old self.new) }
        ensures grows { Grows self.old self.new 1 }
        ensures collected { IfOk result (IsCollectedBut self.old self.new) }
        ensures collected_no_more { OnErr result (IsCollected self.old self.new) }
        ensures cause { IfErr result (IsCauseFor self.old self.new row) }
        ensures over_budget { AreKeptAlive self.old →
            result ≡ Err (Refusal.OverBudget self.old.budget (handle_count self.old)) }
    {
        if self.collect() == 0 {
            return Err(Refusal::OverBudget {
                nodes: self.budget,
                roots: self.live,
            });
        }
        Ok(self.add(alloc, row)?)
    }

    /// A handle on a new node with this row, which no node has, in a table with room for it.
    #[inline(always)]
    fn add(&mut self, alloc: Global, row: Row) -> Result<Handle, OutOfMemory>
        requires variable { IsVariable self.old row.var.0 }
        requires ends_there { (b : Bool) → IsThere (row_of self.old) (end_of row b) }
        requires above { (b : Bool) → IsAbove self.old row.var.0 (end_of row b) }
        requires differ { row.low.0 ≢ row.high.0 }
        requires absent { (n : ℕ) → row_of self.old n ≢ Some row }
        requires room { node_count self.old < self.old.budget }
        ensures added { IfOk result (λ h. AddsRow self.old self.new h row) }
        ensures value { IfOk result (λ h. (a : ℕ → Bool) → value_of self.new h a ≡
            (if a row.var.0 then value_of self.old row.high.0 a else value_of self.old row.low.0 a)) }
        ensures gained { IfOk result (GainsHandle self.old self.new) }
        ensures refused { OnErr result (KeepsHandles self.old self.new) }
        ensures grows { Grows self.old self.new 1 }
        ensures no_more { OnErr result (Grows self.old self.new 0) }
    {
        if self.live == u32::MAX {
            return Err(AllocError);
        }
        self.counts.reserve(1)?;
        let node = self.slots.add(alloc, row)?;
        count_up_to(&mut self.counts, self.slots.len());
        self.counts[node.0 as usize] += 1;
        self.live += 1;
        Ok(Handle { node })
    }
}
