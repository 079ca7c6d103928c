//! The slots after a collection: each number goes into its chain anew.
ghost use Rattle.std.specs.Prelude.{◌≡◌, ◌≢◌, ℕ, ◌<◌, ◌≤◌, ◌+◌, false, length, take, Some, None};
ghost use Rattle.dd_store.specs.Limits.{most_budget};
ghost use Rattle.dd_store.specs.declared.row.Row.{Row};
ghost use Rattle.dd_store.specs.Linked.{AreLinked, AreEmpty, SweepsSlots, kept_row, row_in, slot_at, heads_of};
ghost use Rattle.dd_store.specs.Linked.{is_marked_slot};

use crate::row::NodeNo;
use crate::slots::chains::{Chains, hang};
use crate::slots::slot::Slot;

/// Empties the chains of all variables.
pub(crate) fn clear(variables: &mut [Chains])
    ensures { (v : ℕ) → v < length variables.new → AreEmpty (heads_of variables.new v) }
{
    for chains in variables.iter_mut() {
        chains.clear();
    }
}

/// Puts each number into its chain: that of its row where a marked node has it, and else that of the free numbers.
/// The chains are empty before. Answers the first free number, and how many nodes there are.
pub(crate) fn relink(slots: &mut [Slot], variables: &mut [Chains]) -> (NodeNo, u32)
    requires constants { 2 ≤ length slots.old }
    requires few { length slots.old ≤ most_budget + 2 }
    requires no_rows { (n : ℕ) → n < 2 → row_in slots.old n ≡ None }
    requires known { (n : ℕ) (r : Row) → row_in slots.old n ≡ Some r → r.var.0 < length variables.old }
    requires empty { (v : ℕ) → v < length variables.old → AreEmpty (heads_of variables.old v) }
    ensures linked { AreLinked slots.new result.0.0 variables.new result.1 }
    ensures swept { SweepsSlots slots.old slots.new }
    ensures variables { length variables.new ≡ length variables.old }
{
    let mut free = NodeNo::NO;
    let mut nodes = 0;
    for n in 2..slots.len() {
        relink_one(slots, n, variables, &mut free, &mut nodes);
    }
    (free, nodes)
}

/// Puts one number into its chain, behind those that are in theirs.
fn relink_one(
    slots: &mut [Slot],
    n: usize,
    variables: &mut [Chains],
    free: &mut NodeNo,
    nodes: &mut u32,
)
    requires within { n < length slots.old }
    requires few { length slots.old ≤ most_budget + 2 }
    requires known { (r : Row) → row_in slots.old n ≡ Some r → r.var.0 < length variables.old }
    requires linked { AreLinked (take n slots.old) free.old.0 variables.old nodes.old }
    ensures linked { AreLinked (take (n + 1) slots.new) free.new.0 variables.new nodes.new }
    ensures row { row_in slots.new n ≡ kept_row (slot_at slots.old n) }
    ensures mark { is_marked_slot (slot_at slots.new n) ≡ false }
    ensures others { (m : ℕ) → m ≢ n → slot_at slots.new m ≡ slot_at slots.old m }
{
    let node = NodeNo(n as u32);
    match slots[n].kept() {
        Some(row) => {
            let next = hang(variables, node, &row);
            slots[n] = Slot::Node {
                marked: false,
                row,
                next,
            };
            *nodes += 1;
        }
        None => {
            slots[n] = Slot::Free { next: *free };
            *free = node;
        }
    }
}
