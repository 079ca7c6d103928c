//! The calls of the store, with their contracts.
ghost use Rattle.std.specs.Prelude.{◌≡◌, ◌≢◌, ℕ, ◌+◌, ◌<◌, ◌≤◌, ◌↔◌, [], ◌∷◌, ◌++◌, Bool, Some, if◌then◌else◌, length};
ghost use Rattle.std.specs.Prelude.{IsTrue, IsNone, IfOk, OnOk, OnErr, IfSome, IfNone};

use crate::kernel::Kernel;
use dd_store::{AddRefusal, Handle, NodeNo, OutOfMemory, Row, Var};
use std::alloc::Global;

impl Kernel {
    ghost use Rattle.dd_store.specs.Changes.{Grows, Keeps, IsCollected, KeepsRowsAndBudget};
    ghost use Rattle.dd_store.specs.Follow.{IsThere, assignment_of};
    ghost use Rattle.dd_store.specs.Handles.{KeepsHandles, GainsHandle, LosesHandle, HoldsLess, count_on};
    ghost use Rattle.dd_store.specs.Law.{ValuesTellNodesApart};
    ghost use Rattle.dd_store.specs.Limits.{most_variables};
    ghost use Rattle.dd_store.specs.Table.{IsSound, IsLive, IsVariable, HasEnds, HaveSameValues};
    ghost use Rattle.dd_store.specs.Table.{row_of, value_of, level_of, handles_on, node_count};

    /// Adds a variable, which stands last in the order. Its number is the number of variables before it.
    pub fn add_variable(&mut self, alloc: Global) -> Result<Var, AddRefusal>
        ensures number { IfOk result (λ v. v.0 ≡ length self.old.order) }
        ensures last { IfOk result (λ v. self.new.order ≡ self.old.order ++ v ∷ []) }
        ensures level { IfOk result (λ v. level_of self.new v.0 ≡ length self.old.order) }
        ensures too_many { (result ≡ Err AddRefusal.TooManyVariables) ↔ (length self.old.order ≡ most_variables) }
        ensures refused { OnErr result (self.new.order ≡ self.old.order) }
        ensures levels { (v : ℕ) → IsVariable self.old v → level_of self.new v ≡ level_of self.old v }
        ensures handles { KeepsHandles self.old self.new }
        ensures nodes { KeepsRowsAndBudget self.old self.new }
        ensures values { (n : ℕ) (a : ℕ → Bool) → value_of self.new n a ≡ value_of self.old n a }
        ensures sound { IsSound self.new }
    {
        self.store.add_variable(alloc)
    }

    /// The level of a variable: how many variables of the order stand above it.
    pub fn level(&self, var: Var) -> u32
        requires { IsVariable self.now var.0 }
        ensures { result ≡ level_of self.now var.0 }
    {
        self.store.level(var)
    }

    /// How many variables there are.
    pub fn variables(&self) -> u32
        ensures count { result ≡ length self.now.order }
        ensures sound { IsSound self.now }
    {
        self.store.variables()
    }

    /// The variables, from the top down.
    pub fn order(&self) -> &[Var]
        ensures order { result.now ≡ self.now.order }
        ensures sound { IsSound self.now }
    {
        self.store.order()
    }

    /// How many nodes the table holds, without the two constants.
    pub fn nodes(&self) -> u32
        ensures count { result ≡ node_count self.now }
        ensures sound { IsSound self.now }
    {
        self.store.nodes()
    }

    /// How many nodes the table may hold.
    pub fn budget(&self) -> u32
        ensures { result ≡ self.now.budget }
    {
        self.store.budget()
    }

    /// A handle on a constant, which is no node: its value is `value` for every assignment.
    pub fn constant(&mut self, value: bool) -> Result<Handle, OutOfMemory>
        ensures value { IfOk result (λ h. (a : ℕ → Bool) → value_of self.new h a ≡ value) }
        ensures place { IfOk result (λ h. h ≡ (if value then 1 else 0)) }
        ensures gained { IfOk result (GainsHandle self.old self.new) }
        ensures refused { OnErr result (KeepsHandles self.old self.new) }
        ensures grows { Grows self.old self.new 0 }
    {
        self.store.constant(value)
    }

    /// One more handle on the same node.
    pub fn copy(&mut self, handle: &Handle) -> Result<Handle, OutOfMemory>
        requires { IsLive self.old handle.now }
        ensures place { IfOk result (λ h. h ≡ handle.now) }
        ensures value { IfOk result (λ h. (a : ℕ → Bool) → value_of self.new h a ≡ value_of self.old handle.now a) }
        ensures gained { IfOk result (GainsHandle self.old self.new) }
        ensures refused { OnErr result (KeepsHandles self.old self.new) }
        ensures grows { Grows self.old self.new 0 }
    {
        self.store.copy(handle)
    }

    /// Gives a handle back. Its node stays in the table, now perhaps without a holder.
    pub fn release(&mut self, handle: Handle)
        requires { IsLive self.old handle }
        ensures lost { LosesHandle self.old self.new handle }
        ensures grows { Grows self.old self.new 0 }
    {
        self.store.release(handle);
    }

    /// Gives all handles back.
    pub fn release_all(&mut self, handles: Vec<Handle>)
        requires { (n : ℕ) → count_on handles.items n ≤ handles_on self.old n }
        ensures less { HoldsLess self.old self.new handles.items }
        ensures grows { Grows self.old self.new 0 }
    {
        self.store.release_all(handles);
    }

    /// A handle on this constant or node.
    pub fn hold(&mut self, node: NodeNo) -> Result<Handle, OutOfMemory>
        requires { IsThere (row_of self.old) node.0 }
        ensures place { IfOk result (λ h. h ≡ node.0) }
        ensures value { IfOk result (λ h. (a : ℕ → Bool) → value_of self.new h a ≡ value_of self.old node.0 a) }
        ensures gained { IfOk result (GainsHandle self.old self.new) }
        ensures refused { OnErr result (KeepsHandles self.old self.new) }
        ensures grows { Grows self.old self.new 0 }
    {
        self.store.hold(node)
    }

    /// The value under an assignment, which has one mark per variable, by the variable's number.
    pub fn value(&self, handle: &Handle, assignment: &[bool]) -> bool
        requires live { IsLive self.now handle.now }
        requires each_variable { length assignment.now ≡ length self.now.order }
        ensures { result ≡ value_of self.now handle.now (assignment_of assignment.now) }
    {
        self.store.value(handle, assignment)
    }

    /// Whether two handles have one value for every assignment. They stand on one node then, since two different nodes
    /// have different values (Bryant 1986).
    pub fn same(&self, a: &Handle, b: &Handle) -> bool
        requires a_live { IsLive self.now a.now }
        requires b_live { IsLive self.now b.now }
        ensures same { IsTrue result ↔ HaveSameValues self.now a.now b.now }
        ensures law { ValuesTellNodesApart }
    {
        self.store.same(a, b)
    }

    /// The one value that a handle has for all assignments, where there is one.
    pub fn constant_of(&self, handle: &Handle) -> Option<bool>
        requires { IsLive self.now handle.now }
        ensures value { IfSome result (λ b. (a : ℕ → Bool) → value_of self.now handle.now a ≡ b) }
        ensures exact { (b : Bool) → ((a : ℕ → Bool) → value_of self.now handle.now a ≡ b) → result ≡ Some b }
    {
        self.store.constant_of(handle)
    }

    /// The variable that a node tests, with its end for no and its end for yes; none for a constant.
    pub fn ends(&self, node: NodeNo) -> Option<(Var, NodeNo, NodeNo)>
        requires { IsThere (row_of self.now) node.0 }
        ensures constants { IsNone result ↔ (node.0 < 2) }
        ensures ends { IfSome result (λ e. HasEnds self.now node.0 e.0.0 e.1.0 e.2.0) }
    {
        self.store.ends(node)
    }

    /// The number of the node on which a handle stands.
    pub fn node_of(&self, handle: &Handle) -> NodeNo
        requires { IsLive self.now handle.now }
        ensures place { result.0 ≡ handle.now }
        ensures there { IsThere (row_of self.now) result.0 }
    {
        self.store.node_of(handle)
    }

    /// The node that has a row, where there is one. It takes no memory and collects nothing.
    pub fn find(&self, row: Row) -> Option<NodeNo>
        requires { IsVariable self.now row.var.0 }
        ensures found { IfSome result (λ k. HasEnds self.now k.0 row.var.0 row.low.0 row.high.0) }
        ensures absent { IfNone result ((n : ℕ) → row_of self.now n ≢ Some row) }
        ensures sound { IsSound self.now }
    {
        self.store.find(row)
    }

    /// Frees exactly the nodes that no live handle reaches, and answers how many those are. It takes no memory.
    pub fn collect(&mut self) -> u32
        ensures collected { IsCollected self.old self.new }
        ensures count { node_count self.new + result ≡ node_count self.old }
        ensures handles { KeepsHandles self.old self.new }
        ensures keeps { Keeps self.old self.new }
    {
        self.results.forget();
        self.store.collect()
    }
}
