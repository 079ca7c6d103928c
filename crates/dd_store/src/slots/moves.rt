//! Chains that are spread over other heads.
ghost use Rattle.std.specs.Prelude.{◌≡◌, ℕ, ◌<◌, ◌≤◌, ◌+◌, ◌^◌, length, Some, IsSome};
ghost use Rattle.dd_store.specs.declared.row.Row.{Row};
ghost use Rattle.dd_store.specs.Chains.{AreMoved};
ghost use Rattle.dd_store.specs.Linked.{KeepsSlots, KeepsOthers, PutsFirst, row_in, next_in};

use crate::row::{NodeNo, Var};
use crate::slots::chains::put_first;
use crate::slots::slot::Slot;

/// Moves the nodes of a variable from the chains of the old heads to those of the new ones.
pub(crate) fn move_chains(slots: &mut [Slot], old: &[NodeNo], new: &mut [NodeNo], var: Var)
    requires some { 0 < length new.old }
    requires few { length new.old < 2 ^ 32 }
    requires moved { AreMoved (next_in slots.old) (row_in slots.old) var.0 old.now 0 new.old }
    ensures moved { AreMoved (next_in slots.new) (row_in slots.new) var.0 old.now (length old.now) new.new }
    ensures keeps { KeepsSlots slots.old slots.new }
    ensures others { KeepsOthers slots.old slots.new var.0 }
{
    for bucket in 0..old.len() {
        move_chain(slots, old, bucket, new, var);
    }
}

/// Moves the nodes of one chain.
fn move_chain(slots: &mut [Slot], old: &[NodeNo], bucket: usize, new: &mut [NodeNo], var: Var)
    requires within { bucket < length old.now }
    requires some { 0 < length new.old }
    requires few { length new.old < 2 ^ 32 }
    requires moved { AreMoved (next_in slots.old) (row_in slots.old) var.0 old.now bucket new.old }
    ensures moved { AreMoved (next_in slots.new) (row_in slots.new) var.0 old.now (bucket + 1) new.new }
    ensures keeps { KeepsSlots slots.old slots.new }
    ensures others { KeepsOthers slots.old slots.new var.0 }
{
    let _var = var;
    let mut node = old[bucket];
    for _ in 0..slots.len() {
        if node == NodeNo::NO {
            return;
        }
        node = move_node(slots, node, new);
    }
}

/// Puts a node first in its chain, and answers the one that came next in the chain where it was.
fn move_node(slots: &mut [Slot], node: NodeNo, heads: &mut [NodeNo]) -> NodeNo
    requires some { 0 < length heads.old }
    requires few { length heads.old < 2 ^ 32 }
    requires there { IsSome (row_in slots.old node.0) }
    requires within { node.0 < length slots.old }
    ensures next { result.0 ≡ next_in slots.old node.0 }
    ensures keeps { KeepsSlots slots.old slots.new }
    ensures put { (r : Row) → row_in slots.old node.0 ≡ Some r →
        PutsFirst slots.old slots.new heads.old heads.new node.0 r }
{
    let slot = slots[node.0 as usize];
    if let Some(row) = slot.row() {
        let first = put_first(heads, node, &row);
        slots[node.0 as usize] = slot.with_next(first);
    }
    slot.next()
}
