//! One slot of a table.
ghost use Rattle.std.specs.Prelude.{◌≡◌, ◌↔◌, is_some, Some, IsTrue};

use crate::row::{NodeNo, Row};
use std::mem::size_of;

/// What stands under a number: nothing yet, or the row of a node. Each slot has the next number of its chain; the
/// constant no, which is in no chain, ends it.
#[derive(Clone, Copy, Debug)]
pub(crate) enum Slot {
    /// No node has the number.
    Free {
        next: NodeNo,
    },
    /// A node has it, which a collection has marked or not.
    Node {
        marked: bool,
        row: Row,
        next: NodeNo,
    },
}

/// A slot takes at most 20 bytes.
const _: () = prove!(size_of::<Slot>() <= 20);

impl Slot {
    ghost use Rattle.dd_store.specs.Linked.{row_of_slot, next_of_slot, is_marked_slot, kept_row};

    /// The row of the node.
    pub(crate) fn row(self) -> Option<Row>
        ensures { result ≡ row_of_slot self }
    {
        match self {
            Slot::Free { .. } => None,
            Slot::Node { row, .. } => Some(row),
        }
    }

    /// Whether a node with this row has the number.
    pub(crate) fn holds(self, row: &Row) -> bool
        ensures { IsTrue result ↔ (row_of_slot self ≡ Some row.now) }
    {
        match self {
            Slot::Free { .. } => false,
            Slot::Node { row: own, .. } => own == *row,
        }
    }

    /// The row of a node that is marked.
    pub(crate) fn kept(self) -> Option<Row>
        ensures { result ≡ kept_row self }
    {
        if self.is_marked() { self.row() } else { None }
    }

    /// The next number of the chain.
    pub(crate) fn next(self) -> NodeNo
        ensures { result.0 ≡ next_of_slot self }
    {
        match self {
            Slot::Free { next } => next,
            Slot::Node { next, .. } => next,
        }
    }

    /// Whether a node has the number, and is marked.
    pub(crate) fn is_marked(self) -> bool
        ensures { result ≡ is_marked_slot self }
    {
        match self {
            Slot::Free { .. } => false,
            Slot::Node { marked, .. } => marked,
        }
    }

    /// The slot with another next number.
    pub(crate) fn with_next(self, next: NodeNo) -> Slot
        ensures row { row_of_slot result ≡ row_of_slot self }
        ensures next { next_of_slot result ≡ next.0 }
        ensures mark { is_marked_slot result ≡ is_marked_slot self }
    {
        match self {
            Slot::Free { .. } => Slot::Free { next },
            Slot::Node { marked, row, .. } => Slot::Node { marked, row, next },
        }
    }

    /// The slot with a mark, if a node has it.
    pub(crate) fn with_mark(self) -> Slot
        ensures row { row_of_slot result ≡ row_of_slot self }
        ensures next { next_of_slot result ≡ next_of_slot self }
        ensures mark { is_marked_slot result ≡ is_some (row_of_slot self) }
    {
        match self {
            Slot::Free { next } => Slot::Free { next },
            Slot::Node { row, next, .. } => Slot::Node {
                marked: true,
                row,
                next,
            },
        }
    }
}
