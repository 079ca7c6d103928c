//! Lists of features, in document order.
ghost use Rattle.std.specs.Prelude.{◌≡◌, ◌<◌, ◌≤◌, ◌^◌, IfOk, length};
ghost use Rattle.std.specs.List.{All};
ghost use Rattle.dd_quant.specs.Offers.{has_value, offer_for};
ghost use Rattle.uvl_analyses.specs.Listed.{without_offer, with_mark};

use dd_quant::Offer;
use dd_store::{OutOfMemory, Var};
use std::alloc::Global;
use uvl_model::FeatureNo;

/// The features whose variables may not have the value.
pub(crate) fn without_value(
    alloc: Global,
    vars: &[Var],
    offers: &[Offer],
    value: bool,
) -> Result<Vec<FeatureNo>, OutOfMemory>
    requires few { length vars.now < 2 ^ 32 }
    requires offered { All (λ v. v.0 < length offers.now) vars.now }
    ensures { IfOk result (λ features. features.items ≡ without_offer vars.now offers.now value) }
{
    let mut features = Vec::new(alloc);
    for number in 0..vars.len() {
        if !is_offered(offers, vars[number], value) {
            features.push(FeatureNo(number as u32))?;
        }
    }
    Ok(features)
}

/// Whether a variable may have the value.
pub(crate) fn is_offered(offers: &[Offer], var: Var, value: bool) -> bool
    requires { var.0 < length offers.now }
    ensures { result ≡ has_value (offer_for offers.now var.0) value }
{
    let offer = offers[var.0 as usize];
    if value { offer.yes } else { offer.no }
}

/// The features that are marked.
pub(crate) fn marked(alloc: Global, marks: &[bool]) -> Result<Vec<FeatureNo>, OutOfMemory>
    requires { length marks.now < 2 ^ 32 }
    ensures { IfOk result (λ features. features.items ≡ with_mark marks.now) }
{
    let mut features = Vec::new(alloc);
    for number in 0..marks.len() {
        if marks[number] {
            features.push(FeatureNo(number as u32))?;
        }
    }
    Ok(features)
}
