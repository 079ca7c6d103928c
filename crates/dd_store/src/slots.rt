//! The slots of a table: the rows of its nodes by number, with a mark for each, and the look-up of a node by its row.
ghost use Rattle.std.specs.Prelude.{◌≡◌, ℕ, ◌≤◌, ◌<◌, ◌+◌, [], false, IfOk, IfSome, IfNone, OnErr, OnOk, IsSome};
ghost use Rattle.std.specs.Prelude.{length, Some, ◌≢◌};
ghost use Rattle.dd_store.specs.Limits.{most_budget};

mod chains;
mod find;
mod moves;
mod slot;
mod sweep;

use crate::refusal::OutOfMemory;
use crate::room::push_within_capacity;
use crate::row::{NodeNo, Row, Var};
use crate::slots::chains::{Chains, hang};
use crate::slots::find::find_in;
use crate::slots::slot::Slot;
use crate::slots::sweep::{clear, relink};
use std::alloc::Global;
use std::marker::Model;

/// The nodes of a table by their numbers. The numbers 0 and 1 are those of the constants, and have no row. Contracts
/// see it as the `Nodes` of `specs/Slots.antt`. That no two nodes have one row is the caller's care.
///
/// Each number from 2 on is in one chain: that of the free numbers, or one of its variable's, which the ends of its row
/// choose (Knuth, volume 3, section 6.4).
// A method that reads no field before it calls another one begins with `let _whole = &self.slots;`: what always holds
// of the fields is known to a proof only where one of them is read.
#[derive(Drop)]
pub(crate) struct Slots {
    /// What stands under each number.
    slots: Vec<Slot>,
    /// The first free number.
    free: NodeNo,
    /// How many nodes there are.
    nodes: u32,
    /// The chains of each variable.
    variables: Vec<Chains>,
}

impl Model for Slots {
    ghost use Rattle.std.specs.Prelude.{length};
    ghost use Rattle.dd_store.specs.Slots.{Nodes};
    ghost use Rattle.dd_store.specs.Linked.{AreLinked, rows_of, marks_of};

    ghost Value = { Nodes };

    ghost view = { λ s. record {
      rows = rows_of s.slots.items;
      marks = marks_of s.slots.items;
      variables = length s.variables.items;
    } };

    ghost invariant = { λ s. AreLinked s.slots.items s.free.0 s.variables.items s.nodes };
}

impl Slots {
    ghost use Rattle.dd_store.specs.Slots.{row_at, mark_at, nodes_in, rows_testing};
    ghost use Rattle.dd_store.specs.Slots.{KeepsNodes, AddsNode, MarksNode, Sweeps};

    /// Slots of the two constants: no node, and no variable is known.
    pub(crate) fn new(alloc: Global) -> Result<Slots, OutOfMemory>
        ensures rows { IfOk result (λ s. (n : ℕ) → row_at s n ≡ None) }
        ensures marks { IfOk result (λ s. (n : ℕ) → mark_at s n ≡ false) }
        ensures size { IfOk result (λ s. length s.rows ≡ 2) }
        ensures count { IfOk result (λ s. nodes_in s ≡ 0) }
        ensures variables { IfOk result (λ s. s.variables ≡ 0) }
    {
        let constant = Slot::Free { next: NodeNo::NO };
        let slots = Vec::from_slice(alloc, &[constant, constant])?;
        Ok(Slots {
            slots,
            free: NodeNo::NO,
            nodes: 0,
            variables: Vec::new(alloc),
        })
    }

    /// Makes the next variable known. The nodes stay as they are.
    pub(crate) fn add_variable(&mut self, alloc: Global) -> Result<(), OutOfMemory>
        ensures nodes { KeepsNodes self.old self.new }
        ensures known { OnOk result (self.new.variables ≡ self.old.variables + 1) }
        ensures refused { OnErr result (self.new.variables ≡ self.old.variables) }
    {
        self.variables.reserve(1)?;
        let chains = Chains::new(alloc)?;
        push_within_capacity(&mut self.variables, chains);
        Ok(())
    }

    /// How many numbers there are, with those of the two constants and those that are free.
    pub(crate) fn len(&self) -> u32
        ensures size { result ≡ length self.now.rows }
        ensures bounds { (2 ≤ result) × (result ≤ most_budget + 2) }
    {
        self.slots.len() as u32
    }

    /// How many nodes there are.
    pub(crate) fn nodes(&self) -> u32
        ensures count { result ≡ nodes_in self.now }
        ensures within { result + 2 ≤ length self.now.rows }
    {
        self.nodes
    }

    /// How many nodes test a variable.
    pub(crate) fn nodes_of(&self, var: Var) -> u32
        requires { var.0 < self.now.variables }
        ensures { result ≡ rows_testing var.0 self.now.rows }
    {
        self.variables[var.0 as usize].nodes()
    }

    /// The row of a node; none for a constant, and for a number that is free.
    pub(crate) fn row(&self, node: NodeNo) -> Option<Row>
        requires { node.0 < length self.now.rows }
        ensures { result ≡ row_at self.now node.0 }
    {
        self.slots[node.0 as usize].row()
    }

    /// A node that has a row, where there is one.
    pub(crate) fn find(&self, row: Row) -> Option<NodeNo>
        requires { row.var.0 < self.now.variables }
        ensures found { IfSome result (λ k. row_at self.now k.0 ≡ Some row) }
        ensures absent { IfNone result ((n : ℕ) → row_at self.now n ≢ Some row) }
    {
        find_in(&self.slots, &self.variables[row.var.0 as usize], &row)
    }

    /// The number of a new node with this row: one that is free, and else the next one.
    #[inline(always)]
    pub(crate) fn add(&mut self, alloc: Global, row: Row) -> Result<NodeNo, OutOfMemory>
        requires variable { row.var.0 < self.old.variables }
        requires room { nodes_in self.old < most_budget }
        ensures added { IfOk result (λ k. AddsNode self.old self.new k.0 row) }
        ensures refused { OnErr result (KeepsNodes self.old self.new) }
        ensures variables { self.new.variables ≡ self.old.variables }
    {
        self.widen(alloc, row.var);
        if self.nodes as usize + 2 == self.slots.len() {
            self.push(row)
        } else {
            Ok(self.reuse(row))
        }
    }

    /// Doubles the heads of a variable's chains where its nodes outgrow them and there is memory for it.
    fn widen(&mut self, alloc: Global, var: Var)
        requires { var.0 < self.old.variables }
        ensures nodes { KeepsNodes self.old self.new }
        ensures variables { self.new.variables ≡ self.old.variables }
    {
        self.variables[var.0 as usize].grow(alloc, &mut self.slots, var);
    }

    /// A new node behind the last number, where none is free.
    fn push(&mut self, row: Row) -> Result<NodeNo, OutOfMemory>
        requires variable { row.var.0 < self.old.variables }
        requires room { nodes_in self.old < most_budget }
        requires full { nodes_in self.old + 2 ≡ length self.old.rows }
        ensures added { IfOk result (λ k. AddsNode self.old self.new k.0 row) }
        ensures refused { OnErr result (KeepsNodes self.old self.new) }
        ensures variables { self.new.variables ≡ self.old.variables }
    {
        self.slots.reserve(1)?;
        let node = NodeNo(self.slots.len() as u32);
        let next = hang(&mut self.variables, node, &row);
        let slot = Slot::Node {
            marked: false,
            row,
            next,
        };
        push_within_capacity(&mut self.slots, slot);
        self.nodes += 1;
        Ok(node)
    }

    /// A new node under the first free number.
    fn reuse(&mut self, row: Row) -> NodeNo
        requires variable { row.var.0 < self.old.variables }
        requires free { nodes_in self.old + 2 < length self.old.rows }
        ensures added { AddsNode self.old self.new result.0 row }
    {
        let node = self.free;
        self.free = self.slots[node.0 as usize].next();
        let next = hang(&mut self.variables, node, &row);
        self.slots[node.0 as usize] = Slot::Node {
            marked: false,
            row,
            next,
        };
        self.nodes += 1;
        node
    }

    /// Marks a node.
    pub(crate) fn mark(&mut self, node: NodeNo)
        requires { IsSome (row_at self.old node.0) }
        ensures { MarksNode self.old self.new node.0 }
    {
        let slot = self.slots[node.0 as usize];
        self.slots[node.0 as usize] = slot.with_mark();
    }

    /// Whether a node is marked.
    pub(crate) fn is_marked(&self, node: NodeNo) -> bool
        requires { node.0 < length self.now.rows }
        ensures { result ≡ mark_at self.now node.0 }
    {
        self.slots[node.0 as usize].is_marked()
    }

    /// Frees the numbers of all nodes that are not marked, and takes the marks away. Answers how many nodes went.
    pub(crate) fn sweep(&mut self) -> u32
        ensures swept { Sweeps self.old self.new }
        ensures count { nodes_in self.new + result ≡ nodes_in self.old }
    {
        let before = self.nodes;
        clear(&mut self.variables);
        let (free, nodes) = relink(&mut self.slots, &mut self.variables);
        self.free = free;
        self.nodes = nodes;
        before - nodes
    }
}
