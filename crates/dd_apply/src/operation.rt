//! The operations on two truths that are one recursion on diagrams.
ghost use Rattle.std.specs.Prelude.{◌⊎◌, ◌≤◌, IfSome, IfNone};
ghost use Rattle.dd_apply.specs.Settled.{Settles};

use dd_store::NodeNo;

/// What is made of two truths.
#[derive(Clone, Copy, Debug, PartialEq, Eq, Hash)]
pub enum Operation {
    /// Whether both are true.
    And,
    /// Whether one of them is true.
    Or,
    /// Whether exactly one of them is true.
    Xor,
}

impl Operation {
    /// What the operation makes of two nodes, where that is a constant or one of them for every table.
    pub(crate) fn settle(self, a: NodeNo, b: NodeNo) -> Option<NodeNo>
        ensures settled { IfSome result (λ r. Settles self a.0 b.0 r.0) }
        ensures nodes { IfNone result ((2 ≤ a.0) ⊎ (2 ≤ b.0)) }
    {
        match self {
            Operation::And => settle_and(a, b),
            Operation::Or => settle_or(a, b),
            Operation::Xor => settle_xor(a, b),
        }
    }
}

/// Both are true: one of them, where the other is it too, or true.
fn settle_and(a: NodeNo, b: NodeNo) -> Option<NodeNo>
    ensures settled { IfSome result (λ r. Settles Operation.And a.0 b.0 r.0) }
    ensures nodes { IfNone result ((2 ≤ a.0) ⊎ (2 ≤ b.0)) }
{
    if a == b || b == NodeNo::YES || a == NodeNo::NO {
        Some(a)
    } else if a == NodeNo::YES || b == NodeNo::NO {
        Some(b)
    } else {
        None
    }
}

/// One of them is true: one of them, where the other is it too, or false.
fn settle_or(a: NodeNo, b: NodeNo) -> Option<NodeNo>
    ensures settled { IfSome result (λ r. Settles Operation.Or a.0 b.0 r.0) }
    ensures nodes { IfNone result ((2 ≤ a.0) ⊎ (2 ≤ b.0)) }
{
    if a == b || b == NodeNo::NO || a == NodeNo::YES {
        Some(a)
    } else if a == NodeNo::NO || b == NodeNo::YES {
        Some(b)
    } else {
        None
    }
}

/// Exactly one is true: one of them, where the other is false, and no where they are one.
fn settle_xor(a: NodeNo, b: NodeNo) -> Option<NodeNo>
    ensures settled { IfSome result (λ r. Settles Operation.Xor a.0 b.0 r.0) }
    ensures nodes { IfNone result ((2 ≤ a.0) ⊎ (2 ≤ b.0)) }
{
    if a == b {
        Some(NodeNo::NO)
    } else if b == NodeNo::NO {
        Some(a)
    } else if a == NodeNo::NO {
        Some(b)
    } else {
        None
    }
}
