//! Handles: the values by which callers hold nodes of a table.
use crate::row::NodeNo;
use std::marker::Model;

/// A handle keeps one node of its store alive. Only the store makes handles, and `Store::release` takes one back: a
/// handle that is only dropped stays live, and so does its node.
///
/// A contract sees a handle as the number of the node on which it stands.
#[derive(Debug, Drop)]
pub struct Handle {
    pub(crate) node: NodeNo,
}

impl Model for Handle {
    ghost use Rattle.std.specs.Prelude.{ℕ};

    ghost Value = { ℕ };

    ghost view = { λ handle. handle.node.0 };
}
