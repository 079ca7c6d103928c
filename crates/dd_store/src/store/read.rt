//! What a table tells of a handle: its value, whether it is that of another one or constant, and its node.
ghost use Rattle.std.specs.Prelude.{◌≡◌, ℕ, ◌<◌, ◌↔◌, Bool, Some, length, IsTrue, IsNone, IfSome};
ghost use Rattle.dd_store.specs.Follow.{IsThere, assignment_of};
ghost use Rattle.dd_store.specs.Law.{ValuesTellNodesApart};

use crate::handle::Handle;
use crate::row::{NodeNo, Row, Var};
use crate::store::Store;

impl Store {
    ghost use Rattle.dd_store.specs.Table.{IsSound, IsLive, HasEnds, HaveSameValues, row_of, value_of};

    /// The value under an assignment, which has one mark per variable, by the variable's number.
    pub fn value(&self, handle: &Handle, assignment: &[bool]) -> bool
        requires live { IsLive self.now handle.now }
        requires each_variable { length assignment.now ≡ length self.now.order }
        ensures { result ≡ value_of self.now handle.now (assignment_of assignment.now) }
    {
        let _whole = &self.slots;
        let mut node = handle.node;
        while let Some(row) = self.row(node) {
            node = row.end(assignment[row.var.0 as usize]);
        }
        node == NodeNo::YES
    }

    /// Whether two handles have one value for every assignment. They stand on one node then, since two different nodes
    /// have different values (Bryant 1986).
    pub fn same(&self, a: &Handle, b: &Handle) -> bool
        requires a_live { IsLive self.now a.now }
        requires b_live { IsLive self.now b.now }
        ensures same { IsTrue result ↔ HaveSameValues self.now a.now b.now }
        ensures law { ValuesTellNodesApart }
    {
        let _whole = &self.slots;
        a.node == b.node
    }

    /// The one value that a handle has for all assignments, where there is one.
    pub fn constant_of(&self, handle: &Handle) -> Option<bool>
        requires { IsLive self.now handle.now }
        ensures value { IfSome result (λ b. (a : ℕ → Bool) → value_of self.now handle.now a ≡ b) }
        ensures exact { (b : Bool) → ((a : ℕ → Bool) → value_of self.now handle.now a ≡ b) → result ≡ Some b }
    {
        let _whole = &self.slots;
        match self.row(handle.node) {
            None => Some(handle.node == NodeNo::YES),
            Some(_) => None,
        }
    }

    /// The variable that a node tests, with its end for no and its end for yes; none for a constant.
    pub fn ends(&self, node: NodeNo) -> Option<(Var, NodeNo, NodeNo)>
        requires { IsThere (row_of self.now) node.0 }
        ensures constants { IsNone result ↔ (node.0 < 2) }
        ensures ends { IfSome result (λ e. HasEnds self.now node.0 e.0.0 e.1.0 e.2.0) }
    {
        let row = self.row(node)?;
        Some((row.var, row.low, row.high))
    }

    /// The row of a node; none for a constant.
    fn row(&self, node: NodeNo) -> Option<Row>
        requires { IsThere (row_of self.now) node.0 }
        ensures row { row_of self.now node.0 ≡ result }
        ensures sound { IsSound self.now }
    {
        self.slots.row(node)
    }

    /// The number of the node on which a handle stands.
    pub fn node_of(&self, handle: &Handle) -> NodeNo
        requires { IsLive self.now handle.now }
        ensures place { result.0 ≡ handle.now }
        ensures there { IsThere (row_of self.now) result.0 }
    {
        let _whole = &self.slots;
        handle.node
    }
}
