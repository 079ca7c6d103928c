//! The commands on the products of the main model: `valid`, `void`, `dead`, `core` and `falseopt`.
ghost use Rattle.std.specs.Prelude.{◌≡◌, ◌<◌, [], length, IfOk, OnOk};
ghost use Rattle.std.specs.List.{All};
ghost use Rattle.uvl_run.specs.Products.{RepliesToValid, RepliesToVoid, RepliesToDead, RepliesToCore, RepliesToFalseOpt};
ghost use Rattle.uvl_run.specs.steps.Found.{Says};

use crate::reply::{push_names, push_yes_or_no};
use crate::state::State;
use std::alloc::{AllocError, Global};
use uvl_analyses::AnalysisRefusal;
use uvl_base::Name;
use uvl_lines::push_refusal;
use uvl_model::{FeatureNo, FeatureRow};

/// `valid F..`: whether these features are a product.
pub(crate) fn answer_valid(
    state: &mut State,
    names: &[Name],
    into: &mut Vec<u8>,
) -> Result<(), AllocError>
    requires { into.old.items ≡ [] }
    ensures { OnOk result (RepliesToValid state.old names.now into.new.items state.new) }
{
    match state.is_product(names) {
        Some(answer) => push_yes_or_no(answer, into),
        None => push_refusal("unknown-feature", into),
    }
}

/// `void`: whether there is no product.
pub(crate) fn answer_void(state: &State, into: &mut Vec<u8>) -> Result<(), AllocError>
    requires { into.old.items ≡ [] }
    ensures { OnOk result (RepliesToVoid state.now into.new.items state.now) }
{
    push_yes_or_no(state.is_void(), into)
}

/// `dead`: the features that no product has.
pub(crate) fn answer_dead(
    state: &State,
    alloc: Global,
    into: &mut Vec<u8>,
) -> Result<(), AllocError>
    requires { into.old.items ≡ [] }
    ensures { OnOk result (RepliesToDead state.now into.new.items state.now) }
{
    push_found(alloc, state.features(), state.dead(alloc), into)
}

/// `core`: the features that every product has.
pub(crate) fn answer_core(
    state: &State,
    alloc: Global,
    into: &mut Vec<u8>,
) -> Result<(), AllocError>
    requires { into.old.items ≡ [] }
    ensures { OnOk result (RepliesToCore state.now into.new.items state.now) }
{
    push_found(alloc, state.features(), state.core(alloc), into)
}

/// `falseopt`: the features that seem optional, and come with their parent in every product.
pub(crate) fn answer_false_optional(
    state: &State,
    alloc: Global,
    into: &mut Vec<u8>,
) -> Result<(), AllocError>
    requires { into.old.items ≡ [] }
    ensures { OnOk result (RepliesToFalseOpt state.now into.new.items state.now) }
{
    push_found(alloc, state.features(), state.false_optional(alloc), into)
}

/// Writes what an analysis found into an empty buffer.
fn push_found(
    alloc: Global,
    rows: &[FeatureRow],
    found: Result<Vec<FeatureNo>, AnalysisRefusal>,
    into: &mut Vec<u8>,
) -> Result<(), AllocError>
    requires there { IfOk found (λ features. All (λ feature. feature.0 < length rows.now) features.items) }
    requires empty { into.old.items ≡ [] }
    ensures { OnOk result (Says rows.now found into.new.items) }
{
    match found {
        Ok(features) => push_names(alloc, rows, &features, into),
        Err(AnalysisRefusal::VoidModel) => push_refusal("void", into),
        Err(AnalysisRefusal::OutOfMemory) => Err(AllocError),
    }
}
