//! The rules of a flat model.
use crate::FeatureNo;
use sqlite_items::Boxed;
use uvl_base::{Fixed, Name};

/// How two numbers are compared.
#[derive(Clone, Copy, Debug, PartialEq, Eq)]
pub enum Cmp {
    /// `==`
    Equal,
    /// `!=`
    Differs,
    /// `<`
    Less,
    /// `<=`
    AtMost,
    /// `>`
    Greater,
    /// `>=`
    AtLeast,
}

/// A number of a rule.
#[derive(Debug)]
pub enum Number {
    Literal(Fixed),
    /// The number that a feature has under a key, where it is selected, and else 0.
    Attr(FeatureNo, Name),
    /// The sum of what the selected ones of `top` and all features below it have under a key.
    Sum { top: FeatureNo, key: Name },
    Plus(Boxed<Number>, Boxed<Number>),
    Minus(Boxed<Number>, Boxed<Number>),
    Times(Boxed<Number>, Boxed<Number>),
}

/// A rule: what has to hold of the selected features.
#[derive(Debug)]
pub enum Rule {
    /// The feature is selected.
    Feature(FeatureNo),
    Not(Boxed<Rule>),
    And(Boxed<Rule>, Boxed<Rule>),
    Or(Boxed<Rule>, Boxed<Rule>),
    Implies(Boxed<Rule>, Boxed<Rule>),
    Iff(Boxed<Rule>, Boxed<Rule>),
    Compare(Cmp, Boxed<Number>, Boxed<Number>),
}

impl Drop for Number {
    /// A chain of operators is as deep as it is long, since it groups to the left. So left operands
    /// are taken apart in a loop, and the depth of the calls is that of right operands in each other.
    fn drop(mut self) {
        loop {
            match self {
                Number::Literal(_) | Number::Attr(_, _) | Number::Sum { top: _, key: _ } => return,
                Number::Plus(left, right) => {
                    drop(right);
                    self = left.into_inner();
                }
                Number::Minus(left, right) => {
                    drop(right);
                    self = left.into_inner();
                }
                Number::Times(left, right) => {
                    drop(right);
                    self = left.into_inner();
                }
            }
        }
    }
}

impl Drop for Rule {
    /// Left operands are taken apart in a loop, as those of numbers are.
    fn drop(mut self) {
        loop {
            match self {
                Rule::Feature(_) | Rule::Compare(_, _, _) => return,
                Rule::Not(operand) => self = operand.into_inner(),
                Rule::And(left, right) => {
                    drop(right);
                    self = left.into_inner();
                }
                Rule::Or(left, right) => {
                    drop(right);
                    self = left.into_inner();
                }
                Rule::Implies(left, right) => {
                    drop(right);
                    self = left.into_inner();
                }
                Rule::Iff(left, right) => {
                    drop(right);
                    self = left.into_inner();
                }
            }
        }
    }
}
