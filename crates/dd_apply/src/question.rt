//! What a kept result answers.
use crate::operation::Operation;
use dd_store::NodeNo;

/// What is asked of nodes.
#[derive(Clone, Copy, Debug, PartialEq, Eq, Hash)]
pub enum Question {
    /// What an operation makes of two nodes.
    Binary(Operation, NodeNo, NodeNo),
    /// The second node's value where the first one's is true, and else the third one's.
    Ite(NodeNo, NodeNo, NodeNo),
    /// Whether the second node is true wherever the first one is.
    Implies(NodeNo, NodeNo),
}
