//! Linear sums, and how they compare with 0.

use dd_store::Var;

/// A sum of terms and a constant. A term is a variable with its weight, which is added where the variable is true. All
/// numbers of a sum are in one unit, whichever it is.
#[derive(Debug, Drop)]
pub struct Linear {
    pub terms: Vec<(Var, i128)>,
    pub constant: i128,
}

/// How a sum compares with 0.
#[derive(Clone, Copy, Debug, PartialEq, Eq)]
pub enum Cmp3 {
    /// It is 0.
    Equal,
    /// It is 0 or below.
    AtMost,
    /// It is below 0.
    Less,
}
