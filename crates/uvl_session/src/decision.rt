//! Decisions.
use uvl_model::FeatureNo;

/// A decision on a feature: whether it is to be in the product.
#[derive(Clone, Copy, Debug, PartialEq, Eq)]
pub struct Decision {
    pub feature: FeatureNo,
    pub value: bool,
}
