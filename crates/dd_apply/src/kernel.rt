//! The kernel: a store with a cache of results.
ghost use Rattle.std.specs.Prelude.{◌≡◌, ℕ, ◌≤◌, ◌<◌, [], IfOk};

mod binary;
mod implies;
mod ite;
mod node;
mod operations;
mod split;
mod store;

use crate::results::Results;
use dd_store::{OutOfMemory, Store};
use std::alloc::Global;
use std::marker::Model;

/// A table of decision diagrams with operations on them, and a cache of their results. Contracts see it as the `Table`
/// of its store: no answer depends on the cache.
// A method that reads no field before it calls another one begins with `let _whole = &self.store;`: what always holds
// of the fields is known to a proof only where one of them is read.
#[derive(Drop)]
pub struct Kernel {
    /// The table.
    store: Store,
    /// The results that are kept. They are forgotten before a node's number can be used again.
    results: Results,
    /// How often a node became an end of a new node, counted no further than 255: results are kept only of nodes that
    /// are shared. That is a hint: a wrong count costs time alone.
    ends: Vec<u8>,
}

impl Model for Kernel {
    ghost use Rattle.dd_store.specs.Table.{Table};
    ghost use Rattle.dd_apply.specs.Right.{AreRight};

    ghost Value = { Table };

    ghost view = { λ k. k.store };

    ghost invariant = { λ k. AreRight k.store k.results };
}

impl Kernel {
    ghost use Rattle.dd_store.specs.Limits.{least_budget, most_budget};
    ghost use Rattle.dd_store.specs.Table.{IsSound, node_count, handle_count, handles_on};

    /// A kernel of an empty table: no variable, no node and no live handle. `budget` is the number of nodes that it may
    /// hold, for good.
    pub fn new(alloc: Global, budget: u32) -> Result<Kernel, OutOfMemory>
        requires least { least_budget ≤ budget }
        requires largest { budget ≤ most_budget }
        ensures variables { IfOk result (λ kernel. kernel.order ≡ []) }
        ensures nodes { IfOk result (λ kernel. node_count kernel ≡ 0) }
        ensures handles { IfOk result (λ kernel. (n : ℕ) → handles_on kernel n ≡ 0) }
        ensures none_live { IfOk result (λ kernel. handle_count kernel ≡ 0) }
        ensures budget { IfOk result (λ kernel. kernel.budget ≡ budget) }
        ensures sound { IfOk result IsSound }
    {
        let store = Store::new(alloc, budget)?;
        Ok(Kernel {
            store,
            results: Results::new(alloc),
            ends: Vec::new(alloc),
        })
    }

    /// Forgets all results that are kept.
    pub fn clear_cache(&mut self)
        ensures { self.new ≡ self.old }
    {
        self.results.forget();
    }
}
