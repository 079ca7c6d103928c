//! Variables, the numbers of nodes, and the row that stands behind a number.

ghost use Rattle.std.specs.Prelude.{◌≡◌};

/// A variable, by its number in the order of addition. Where it stands in the order is its level.
#[derive(Clone, Copy, Debug, PartialEq, Eq, Hash)]
pub struct Var(pub u32);

/// The number of a node: 0 is the constant no, 1 the constant yes, and every other node of a table has a number above.
#[derive(Clone, Copy, Debug, PartialEq, Eq, Hash)]
pub struct NodeNo(pub u32);

impl NodeNo {
    /// The constant that is no for every assignment.
    pub const NO: NodeNo = NodeNo(0);
    /// The constant that is yes for every assignment.
    pub const YES: NodeNo = NodeNo(1);
}

/// What a node is: the variable that it tests, and the two ends, `low` for no and `high` for yes (Bryant 1986).
#[derive(Clone, Copy, Debug, PartialEq, Eq, Hash)]
pub struct Row {
    pub var: Var,
    pub low: NodeNo,
    pub high: NodeNo,
}

impl Row {
    ghost use Rattle.dd_store.specs.Follow.{end_of};

    /// The end for this value of the variable.
    pub fn end(self, value: bool) -> NodeNo
        ensures { result.0 ≡ end_of self value }
    {
        if value { self.high } else { self.low }
    }
}
