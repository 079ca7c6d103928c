//! Splitting nodes past a variable.
ghost use Rattle.std.specs.Prelude.{◌≡◌, ◌⊎◌, ◌≤◌, ◌<◌, true, false, length, min};

use crate::kernel::Kernel;
use dd_store::{NodeNo, Var};

impl Kernel {
    ghost use Rattle.dd_store.specs.Follow.{IsThere, step};
    ghost use Rattle.dd_store.specs.Table.{IsVariable, row_of, level_of, top_of};

    /// The higher one of two nodes of which one at least is no constant.
    pub(crate) fn higher(&self, a: NodeNo, b: NodeNo) -> NodeNo
        requires a_there { IsThere (row_of self.now) a.0 }
        requires b_there { IsThere (row_of self.now) b.0 }
        ensures one { (result ≡ a) ⊎ (result ≡ b) }
        ensures top { top_of self.now result.0 ≡ min (top_of self.now a.0) (top_of self.now b.0) }
    {
        if self.top(a) <= self.top(b) { a } else { b }
    }

    /// The level of a node, below all variables for a constant.
    fn top(&self, node: NodeNo) -> u32
        requires { IsThere (row_of self.now) node.0 }
        ensures { result ≡ top_of self.now node.0 }
    {
        match self.store.ends(node) {
            Some((var, _, _)) => self.store.level(var),
            None => self.store.variables(),
        }
    }

    /// The nodes to which a node leads past a variable, its own or one above it: for no and for yes.
    pub(crate) fn past(&self, var: Var, node: NodeNo) -> (NodeNo, NodeNo)
        requires { IsThere (row_of self.now) node.0 }
        ensures low { result.0.0 ≡ step (row_of self.now node.0) var.0 node.0 false }
        ensures high { result.1.0 ≡ step (row_of self.now node.0) var.0 node.0 true }
    {
        let _order = self.store.order();
        match self.store.ends(node) {
            Some((tested, low, high)) => {
                if tested == var {
                    (low, high)
                } else {
                    (node, node)
                }
            }
            None => (node, node),
        }
    }

    /// The variable of a node.
    pub(crate) fn tested(&self, node: NodeNo) -> Var
        requires there { IsThere (row_of self.now) node.0 }
        requires no_constant { top_of self.now node.0 < length self.now.order }
        ensures variable { IsVariable self.now result.0 }
        ensures top { level_of self.now result.0 ≡ top_of self.now node.0 }
    {
        let _order = self.store.order();
        match self.store.ends(node) {
            Some((var, _, _)) => var,
            None => Var(0),
        }
    }
}
