//! Expressions: what a line of constraints says.
use crate::Ref;
use sqlite_items::Boxed;
use uvl_base::{Fixed, Name, Place};

/// The operators with two operands.
#[derive(Clone, Copy, Debug, PartialEq, Eq)]
pub enum BinOp {
    /// `&`
    And,
    /// `|`
    Or,
    /// `=>`
    Implies,
    /// `<=>`
    Iff,
    /// `==`
    Equal,
    /// `!=`
    Differs,
    /// `<`
    Less,
    /// `<=`
    AtMost,
    /// `>`
    Greater,
    /// `>=`
    AtLeast,
    /// `+`
    Plus,
    /// `-`
    Minus,
    /// `*`
    Times,
}

/// An expression. Parentheses make no node: what they say is in the tree.
#[derive(Debug)]
pub enum Expr {
    /// A number, and where its first token stands, the sign where it has one.
    Number(Fixed, Place),
    /// A feature, or an attribute of one.
    Name(Ref),
    /// The sum of the attributes of this name, and where the word `sum` stands.
    Sum(Name, Place),
    /// The opposite of an operand, and where `!` stands.
    Not(Boxed<Expr>, Place),
    /// An operator, its operands, and where its symbol stands.
    Binary(BinOp, Boxed<Expr>, Boxed<Expr>, Place),
}

impl Drop for Expr {
    /// A chain of operators is as deep as it is long, since it groups to the left. So left operands are
    /// taken apart in a loop, and the depth of the calls is that of right operands in each other.
    fn drop(mut self) {
        loop {
            match self {
                Expr::Number(_, _) | Expr::Name(_) | Expr::Sum(_, _) => return,
                Expr::Not(operand, _) => self = operand.into_inner(),
                Expr::Binary(_, left, right, _) => {
                    drop(right);
                    self = left.into_inner();
                }
            }
        }
    }
}
