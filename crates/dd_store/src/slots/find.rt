//! The look-up of a node by its row.
ghost use Rattle.std.specs.Prelude.{◌≡◌, ◌≢◌, ℕ, Some, IfSome, IfNone};
ghost use Rattle.dd_store.specs.Chains.{AreChained};
ghost use Rattle.dd_store.specs.Linked.{row_in, next_in};

use crate::row::{NodeNo, Row};
use crate::slots::chains::Chains;
use crate::slots::slot::Slot;

/// A node that has a row, where there is one: it hangs in the one chain in which its row says.
pub(crate) fn find_in(slots: &[Slot], chains: &Chains, row: &Row) -> Option<NodeNo>
    requires { AreChained (next_in slots.now) (row_in slots.now) row.now.var.0 chains.now.heads }
    ensures found { IfSome result (λ k. row_in slots.now k.0 ≡ Some row.now) }
    ensures absent { IfNone result ((n : ℕ) → row_in slots.now n ≢ Some row.now) }
{
    let mut node = chains.head(row);
    for _ in 0..slots.len() {
        if node == NodeNo::NO {
            return None;
        }
        let slot = slots[node.0 as usize];
        if slot.holds(row) {
            return Some(node);
        }
        node = slot.next();
    }
    None
}
