//! Collection: the nodes that no live handle reaches leave the table.
ghost use Rattle.std.specs.Prelude.{◌≡◌, ℕ, ◌+◌, ◌<◌, ◌≤◌, false, length, slice_index};
ghost use Rattle.dd_store.specs.Follow.{IsThere};
ghost use Rattle.dd_store.specs.Marks.{MarksBelow, Spreads};
ghost use Rattle.dd_store.specs.Slots.{mark_at, row_at};
ghost use Rattle.dd_store.specs.Table.{AreReduced};

use crate::row::{NodeNo, Var};
use crate::slots::Slots;
use crate::store::Store;

impl Store {
    ghost use Rattle.dd_store.specs.Table.{node_count};
    ghost use Rattle.dd_store.specs.Changes.{Keeps, IsCollected};
    ghost use Rattle.dd_store.specs.Handles.{KeepsHandles};

    /// Frees exactly the nodes that no live handle reaches, and answers how many those are. It takes no memory.
    #[cold]
    #[inline(never)]
    pub fn collect(&mut self) -> u32
        ensures collected { IsCollected self.old self.new }
        ensures count { node_count self.new + result ≡ node_count self.old }
        ensures handles { KeepsHandles self.old self.new }
        ensures keeps { Keeps self.old self.new }
    {
        mark_live(&mut self.slots, &self.order, &self.counts);
        self.slots.sweep()
    }
}

/// Marks exactly what the numbers reach on which a handle stands.
fn mark_live(slots: &mut Slots, order: &[Var], counts: &[u32])
    requires reduced { AreReduced order.now (row_at slots.old) }
    requires there { (n : ℕ) → 0 < slice_index counts.now n → IsThere (row_at slots.old) n }
    requires counted { length counts.now ≡ length slots.old.rows }
    requires unmarked { (n : ℕ) → mark_at slots.old n ≡ false }
    ensures marks { MarksBelow order.now (row_at slots.old) counts.now (mark_at slots.new) (length counts.now) }
    ensures rows { slots.new.rows ≡ slots.old.rows }
    ensures variables { slots.new.variables ≡ slots.old.variables }
{
    for number in 0..slots.len() {
        if counts[number as usize] > 0 {
            mark_from(slots, order, NodeNo(number));
        }
    }
}

/// Marks what a number reaches and isn't marked. It goes down the levels, so it is never deeper in itself than those
/// are many: `order` tells the proof so.
fn mark_from(slots: &mut Slots, order: &[Var], node: NodeNo)
    requires reduced { AreReduced order.now (row_at slots.old) }
    requires there { IsThere (row_at slots.old) node.0 }
    requires constants { 2 ≤ length slots.old.rows }
    ensures marks { Spreads order.now (row_at slots.old) (mark_at slots.old) (mark_at slots.new) node.0 }
    ensures rows { slots.new.rows ≡ slots.old.rows }
    ensures variables { slots.new.variables ≡ slots.old.variables }
{
    if slots.is_marked(node) {
        return;
    }
    let Some(row) = slots.row(node) else {
        return;
    };
    slots.mark(node);
    mark_from(slots, order, row.low);
    mark_from(slots, order, row.high);
}
