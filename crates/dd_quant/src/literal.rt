//! Literals: values that are given for variables.
use dd_store::Var;

/// A variable with a value.
#[derive(Clone, Copy, Debug, PartialEq, Eq)]
pub struct Literal {
    pub var: Var,
    pub value: bool,
}
