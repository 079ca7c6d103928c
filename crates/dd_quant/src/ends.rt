//! The ends of nodes.
ghost use Rattle.std.specs.Prelude.{◌≡◌, ◌<◌, if◌then◌else◌, IfSome, IfNone};
ghost use Rattle.dd_store.specs.Follow.{IsThere};
ghost use Rattle.dd_store.specs.Table.{HasEnds, row_of};

use dd_apply::Kernel;
use dd_store::{NodeNo, Var};

/// The variable that a node tests, with its end for no and its end for yes.
#[derive(Clone, Copy)]
pub(crate) struct Ends {
    pub(crate) var: Var,
    pub(crate) low: NodeNo,
    pub(crate) high: NodeNo,
}

impl Ends {
    /// The end for a value.
    pub(crate) fn end(self, value: bool) -> NodeNo
        ensures { result.0 ≡ (if value then self.high.0 else self.low.0) }
    {
        if value { self.high } else { self.low }
    }
}

/// The ends of a node; none for a constant.
pub(crate) fn ends_of(kernel: &Kernel, node: NodeNo) -> Option<Ends>
    requires { IsThere (row_of kernel.now) node.0 }
    ensures constants { IfNone result (node.0 < 2) }
    ensures ends { IfSome result (λ e. HasEnds kernel.now node.0 e.var.0 e.low.0 e.high.0) }
{
    let _order = kernel.order();
    let (var, low, high) = kernel.ends(node)?;
    Some(Ends { var, low, high })
}
