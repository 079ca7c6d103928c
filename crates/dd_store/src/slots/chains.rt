//! The chains of one variable: a head for each, and how many nodes hang in them.
ghost use Rattle.std.specs.Prelude.{◌≡◌, ℕ, ◌<◌, ◌≤◌, ◌+◌, ◌*◌, ◌^◌, [], ◌∷◌, length, set, IfOk, IfSome, IfNone};
ghost use Rattle.dd_store.specs.Limits.{most_budget};
ghost use Rattle.dd_store.specs.Chains.{head_at, bucket_of, AreChained};
ghost use Rattle.dd_store.specs.Linked.{row_in, next_in, KeepsSlots, KeepsOthers, IsPlace, heads_of, AreEmpty};

use crate::refusal::OutOfMemory;
use crate::row::{NodeNo, Row, Var};
use crate::slots::moves::move_chains;
use crate::slots::slot::Slot;
use std::alloc::Global;
use std::cmp::max;
use std::marker::Model;

/// The heads of the chains in which the nodes of one variable hang. There is always one.
#[derive(Drop)]
pub(crate) struct Chains {
    /// The first number of each chain.
    heads: Vec<NodeNo>,
    /// How many nodes hang in the chains.
    nodes: u32,
}

impl Model for Chains {
    ghost use Rattle.std.specs.Prelude.{◌<◌, ◌≤◌, length};
    ghost use Rattle.dd_store.specs.Chains.{Heads};

    ghost Value = { Heads };

    ghost view = { λ c. record { heads = c.heads.items; nodes = c.nodes } };

    ghost invariant = { λ c. (0 < length c.heads.items) × (length c.heads.items < 4294967296) };
}

/// In which of so many chains a row hangs.
fn bucket(row: &Row, size: usize) -> usize
    requires some { 0 < size }
    requires few { size < 2 ^ 32 }
    ensures is { result ≡ bucket_of row.now size }
    ensures within { result < size }
{
    let low = row.low.0.wrapping_mul(2_654_435_761);
    let high = row.high.0.wrapping_mul(2_246_822_519);
    let mixed = low.wrapping_add(high);
    ((u64::from(mixed) * size as u64) / 4_294_967_296) as usize
}

impl Chains {
    ghost use Rattle.dd_store.specs.Chains.{width};

    /// One empty chain.
    pub(crate) fn new(alloc: Global) -> Result<Chains, OutOfMemory>
        ensures heads { IfOk result (λ c. c.heads ≡ record { 0 = 0 } ∷ []) }
        ensures nodes { IfOk result (λ c. c.nodes ≡ 0) }
    {
        let heads = Vec::from_slice(alloc, &[NodeNo::NO])?;
        Ok(Chains { heads, nodes: 0 })
    }

    /// How many nodes hang in the chains.
    pub(crate) fn nodes(&self) -> u32
        ensures { result ≡ self.now.nodes }
    {
        self.nodes
    }

    /// The first number of the chain in which a node with this row hangs.
    pub(crate) fn head(&self, row: &Row) -> NodeNo
        ensures head { result.0 ≡ head_at self.now.heads (bucket_of row.now (width self.now)) }
        ensures within { bucket_of row.now (width self.now) < width self.now }
    {
        self.heads[bucket(row, self.heads.len())]
    }

    /// Puts a node first in its chain, and answers the one that was first.
    pub(crate) fn put(&mut self, node: NodeNo, row: &Row) -> NodeNo
        requires { self.old.nodes < most_budget }
        ensures first { result.0 ≡ head_at self.old.heads (bucket_of row.now (width self.old)) }
        ensures heads { self.new.heads ≡ set self.old.heads (bucket_of row.now (width self.old)) node }
        ensures within { bucket_of row.now (width self.old) < width self.old }
        ensures nodes { self.new.nodes ≡ self.old.nodes + 1 }
    {
        self.nodes += 1;
        put_first(&mut self.heads, node, row)
    }

    /// Doubles the heads where the nodes outgrow them. Where there is no memory for it, they stay as they are, and the
    /// chains grow longer.
    pub(crate) fn grow(&mut self, alloc: Global, slots: &mut [Slot], var: Var)
        requires few { self.old.nodes ≤ most_budget }
        requires chained { AreChained (next_in slots.old) (row_in slots.old) var.0 self.old.heads }
        ensures chained { AreChained (next_in slots.new) (row_in slots.new) var.0 self.new.heads }
        ensures nodes { self.new.nodes ≡ self.old.nodes }
        ensures keeps { KeepsSlots slots.old slots.new }
        ensures others { KeepsOthers slots.old slots.new var.0 }
    {
        if (self.nodes as usize) < self.heads.len() {
            return;
        }
        if let Some(heads) = spread(alloc, slots, &self.heads, var) {
            self.heads = heads;
        }
    }

    /// Empties the chains, and keeps at most as many heads as nodes hung in them.
    pub(crate) fn clear(&mut self)
        ensures { AreEmpty self.new }
    {
        self.heads.truncate(max(self.nodes, 1) as usize);
        self.heads.shrink_to_fit();
        self.heads.fill(NodeNo::NO);
        self.nodes = 0;
    }
}

/// Puts a node first in its chain, and answers the one that was first.
pub(crate) fn put_first(heads: &mut [NodeNo], node: NodeNo, row: &Row) -> NodeNo
    requires some { 0 < length heads.old }
    requires few { length heads.old < 2 ^ 32 }
    ensures first { result.0 ≡ head_at heads.old (bucket_of row.now (length heads.old)) }
    ensures heads { heads.new ≡ set heads.old (bucket_of row.now (length heads.old)) node }
    ensures within { bucket_of row.now (length heads.old) < length heads.old }
{
    let bucket = bucket(row, heads.len());
    let first = heads[bucket];
    heads[bucket] = node;
    first
}

/// Puts a node first in its chain among those of all variables, and answers the one that was first.
pub(crate) fn hang(variables: &mut [Chains], node: NodeNo, row: &Row) -> NodeNo
    requires known { row.now.var.0 < length variables.old }
    requires room { (heads_of variables.old row.now.var.0).nodes < most_budget }
    ensures place { IsPlace variables.old node.0 row.now result (heads_of variables.new row.now.var.0) }
    ensures others { variables.new ≡ set variables.old row.now.var.0 (heads_of variables.new row.now.var.0) }
{
    variables[row.var.0 as usize].put(node, row)
}

/// Twice as many heads, with the nodes in the chains of these; nothing where memory is wanting.
#[cold]
#[inline(never)]
fn spread(alloc: Global, slots: &mut [Slot], old: &[NodeNo], var: Var) -> Option<Vec<NodeNo>>
    requires some { 0 < length old.now }
    requires few { 2 * length old.now < 2 ^ 32 }
    requires chained { AreChained (next_in slots.old) (row_in slots.old) var.0 old.now }
    ensures chained { IfSome result (λ heads. AreChained (next_in slots.new) (row_in slots.new) var.0 heads.items) }
    ensures size { IfSome result (λ heads. length heads.items ≡ 2 * length old.now) }
    ensures refused { IfNone result (slots.new ≡ slots.old) }
    ensures keeps { KeepsSlots slots.old slots.new }
    ensures others { KeepsOthers slots.old slots.new var.0 }
{
    match vec![in alloc; NodeNo::NO; 2 * old.len()] {
        Ok(mut heads) => {
            move_chains(slots, old, &mut heads, var);
            Some(heads)
        }
        Err(_) => None,
    }
}
