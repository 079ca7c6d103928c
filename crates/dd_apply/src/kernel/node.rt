//! Nodes: as the store makes them, with the cache emptied before a node's number can be used again.
ghost use Rattle.std.specs.Prelude.{◌≡◌, ◌≢◌, ◌⊎◌, ℕ, Bool, Some, [], if◌then◌else◌, IfOk, OnErr, IfErr, IsTrue};

use crate::kernel::Kernel;
use crate::results::Results;
use dd_store::{Handle, NodeNo, Refusal, Row, Store, Var};
use std::alloc::Global;

impl Kernel {
    ghost use Rattle.dd_store.specs.Changes.{Grows, KeepsRows, IsFullFor, IsCollected, IsCollectedBut, AreKeptAlive};
    ghost use Rattle.dd_store.specs.Exhausted.{IsCauseFor};
    ghost use Rattle.dd_store.specs.Handles.{KeepsHandles, GainsHandle};
    ghost use Rattle.dd_store.specs.Table.{IsLive, IsVariable, IsAbove, row_of, row_with, value_of, handle_count};

    /// A handle whose value is that of `high` where `var` is true, and else that of `low`. It stands on the end that
    /// both have in common, on the node that is there already, or on a new node.
    ///
    /// Where a new node is wanted and the table holds as many as its budget, it collects as `collect` does. Where that
    /// frees nothing, the answer is `OverBudget`.
    #[inline(never)]
    pub fn node(
        &mut self,
        alloc: Global,
        var: Var,
        low: &Handle,
        high: &Handle,
    ) -> Result<Handle, Refusal>
        requires variable { IsVariable self.old var.0 }
        requires low_live { IsLive self.old low.now }
        requires high_live { IsLive self.old high.now }
        requires above_low { IsAbove self.old var.0 low.now }
        requires above_high { IsAbove self.old var.0 high.now }

        // The answered handle, and where it stands.
        ensures value { IfOk result (λ h. (a : ℕ → Bool) →
            value_of self.new h a ≡ (if a var.0 then value_of self.old high.now a else value_of self.old low.now a)) }
        ensures common_end { IfOk result (λ h. low.now ≡ high.now → h ≡ low.now) }
        ensures row { IfOk result (λ h. low.now ≢ high.now →
            row_of self.new h ≡ Some (row_with var.0 low.now high.now)) }

        // The live handles, and what stays.
        ensures gained { IfOk result (GainsHandle self.old self.new) }
        ensures refused { OnErr result (KeepsHandles self.old self.new) }
        ensures grows { Grows self.old self.new 1 }

        // Where the table has room or the node, no node leaves; at most the asked node is new, and none at a refusal.
        ensures stays { ¬ IsFullFor self.old (row_with var.0 low.now high.now) → KeepsRows self.old self.new }
        ensures others { ¬ IsFullFor self.old (row_with var.0 low.now high.now) →
            IfOk result (λ h. (n : ℕ) → n ≢ h → row_of self.new n ≡ row_of self.old n) }
        ensures no_more { ¬ IsFullFor self.old (row_with var.0 low.now high.now) →
            OnErr result (Grows self.old self.new 0) }

        // Else exactly what isn't kept alive leaves.
        ensures collected { IsFullFor self.old (row_with var.0 low.now high.now) →
            IfOk result (IsCollectedBut self.old self.new) }
        ensures collected_no_more { IsFullFor self.old (row_with var.0 low.now high.now) →
            OnErr result (IsCollected self.old self.new) }

        // Over the budget exactly where the table is full, doesn't have the node, and each node is kept alive.
        ensures cause { IfErr result (IsCauseFor self.old self.new (row_with var.0 low.now high.now)) }
        ensures over_budget { IsFullFor self.old (row_with var.0 low.now high.now) → AreKeptAlive self.old →
            result ≡ Err (Refusal.OverBudget self.old.budget (handle_count self.old)) }
    {
        let low_node = self.store.node_of(low);
        let high_node = self.store.node_of(high);
        let row = Row {
            var,
            low: low_node,
            high: high_node,
        };
        forget_unless_room(&self.store, &mut self.results, row);
        let before = self.store.nodes();
        let made = self.store.node(alloc, var, low, high);
        count_ends(&mut self.ends, &self.store, before, &made, row);
        made
    }

    /// Whether a node is an end of several nodes, so that one operation may meet it more than once. It may be said of
    /// more nodes, and of no constant: what is asked of a node beside one is as often asked as the node is met.
    pub(crate) fn is_shared(&self, node: NodeNo) -> bool {
        if node.0 < 2 {
            return false;
        }
        match self.ends.get(node.0 as usize) {
            Some(count) => *count > 1,
            None => true,
        }
    }
}

ghost use Rattle.dd_store.specs.Table.{IsVariable, IsLive};
ghost use Rattle.dd_apply.specs.Room.{HasRoomFor};

/// Forgets all results where a node with this row could be had only behind a collection.
#[inline(always)]
fn forget_unless_room(store: &Store, results: &mut Results, row: Row)
    requires { IsVariable store.now row.var.0 }
    ensures { (HasRoomFor store.now row × (results.new ≡ results.old)) ⊎ (results.new ≡ []) }
{
    if !has_room_for(store, row) {
        results.forget();
    }
}

/// Whether a node with this row can be had without a collection: its ends are one, there is room, or it is there.
fn has_room_for(store: &Store, row: Row) -> bool
    requires { IsVariable store.now row.var.0 }
    ensures { IsTrue result → HasRoomFor store.now row }
{
    row.low == row.high || store.nodes() < store.budget() || store.find(row).is_some()
}

/// Counts the ends of the node that was made, where the number of nodes tells that it is new. There may be no memory
/// for the counts of some nodes.
#[inline(always)]
fn count_ends(
    ends: &mut Vec<u8>,
    store: &Store,
    before: u32,
    made: &Result<Handle, Refusal>,
    row: Row,
)
    requires { IfOk made.now (IsLive store.now) }
{
    if let Ok(handle) = made
        && store.nodes() != before
    {
        begin_count(ends, store.node_of(handle));
        count_end(ends, row.low);
        count_end(ends, row.high);
    }
}

/// Sets the count of a new node to 0, where there is memory for it. Mostly it is the next one behind those that have a
/// count.
fn begin_count(ends: &mut Vec<u8>, node: NodeNo) {
    let at = node.0 as usize;
    if let Some(count) = ends.get_mut(at) {
        *count = 0;
    } else if ends.len() == at {
        let _kept = ends.push(0);
    } else {
        let _kept = ends.resize(at + 1, 0);
    }
}

/// Counts an end of a new node, where it has a count.
fn count_end(ends: &mut [u8], node: NodeNo) {
    if let Some(count) = ends.get_mut(node.0 as usize) {
        *count = count.saturating_add(1);
    }
}
