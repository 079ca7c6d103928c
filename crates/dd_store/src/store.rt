//! The store: one table of diagrams under a budget, its live handles and its look-up of nodes.
ghost use Rattle.std.specs.Prelude.{◌≡◌, ℕ, ◌≤◌, ◌<◌, [], IfOk};

mod collect;
mod handles;
mod node;
mod read;
mod variables;

use crate::refusal::OutOfMemory;
use crate::row::Var;
use crate::slots::Slots;
use std::alloc::Global;
use std::marker::Model;
pub use variables::MAX_VARIABLES;

/// The least budget that a table may have.
pub const LEAST_BUDGET: u32 = 16;
/// The largest one.
pub const MOST_BUDGET: u32 = 16_777_216;

/// A table of reduced ordered binary decision diagrams (Bryant 1986), with the order of its variables, the live handles
/// and a budget of nodes. Contracts see it as a `Table` of `specs/Table.antt`.
// A method that reads no field before it calls another one begins with `let _whole = &self.slots;`: what always holds
// of the fields is known to a proof only where one of them is read.
#[derive(Drop)]
pub struct Store {
    /// The row of each node, by the node's number, and the number of the node that has a row.
    slots: Slots,
    /// How many live handles stand on each number.
    counts: Vec<u32>,
    /// How many handles are live.
    live: u32,
    /// The variables, from the top down.
    order: Vec<Var>,
    /// The level of each variable, by its number.
    levels: Vec<u32>,
    /// How many nodes there may be.
    budget: u32,
}

impl Model for Store {
    ghost use Rattle.dd_store.specs.Table.{Table};
    ghost use Rattle.dd_store.specs.Kept.{IsKept};

    ghost Value = { Table };

    ghost view = { λ s. record {
      slots = s.slots.rows;
      order = s.order.items;
      counts = s.counts.items;
      budget = s.budget;
    } };

    ghost invariant = { λ s. IsKept
        (record { slots = s.slots.rows; order = s.order.items; counts = s.counts.items; budget = s.budget })
        (record {
          marks = s.slots.marks;
          variables = s.slots.variables;
          live = s.live;
          levels = s.levels.items;
        }) };
}

impl Store {
    ghost use Rattle.dd_store.specs.Limits.{least_budget, most_budget};
    ghost use Rattle.dd_store.specs.Table.{IsSound, row_of, node_count, handle_count, handles_on};

    /// An empty table: no variable, no node and no live handle. `budget` is the number of nodes that it may hold, for
    /// good.
    pub fn new(alloc: Global, budget: u32) -> Result<Store, OutOfMemory>
        requires least { least_budget ≤ budget }
        requires largest { budget ≤ most_budget }
        ensures variables { IfOk result (λ store. store.order ≡ []) }
        ensures nodes { IfOk result (λ store. node_count store ≡ 0) }
        ensures handles { IfOk result (λ store. (n : ℕ) → handles_on store n ≡ 0) }
        ensures none_live { IfOk result (λ store. handle_count store ≡ 0) }
        ensures budget { IfOk result (λ store. store.budget ≡ budget) }
        ensures sound { IfOk result IsSound }
    {
        let slots = Slots::new(alloc)?;
        let counts = Vec::from_slice(alloc, &[0, 0])?;
        Ok(Store {
            slots,
            counts,
            live: 0,
            order: Vec::new(alloc),
            levels: Vec::new(alloc),
            budget,
        })
    }

    /// How many nodes the table holds, without the two constants.
    pub fn nodes(&self) -> u32
        ensures count { result ≡ node_count self.now }
        ensures sound { IsSound self.now }
    {
        self.slots.nodes()
    }

    /// How many nodes the table may hold.
    pub fn budget(&self) -> u32
        ensures { result ≡ self.now.budget }
    {
        self.budget
    }
}
