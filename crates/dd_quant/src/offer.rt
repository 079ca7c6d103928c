//! Offers: the values that a variable may have.

/// The values of a variable for which some assignment makes a value true.
#[derive(Clone, Copy, Debug, PartialEq, Eq)]
pub struct Offer {
    /// Whether the variable may be false.
    pub no: bool,
    /// Whether it may be true.
    pub yes: bool,
}
