//! The diagram of a model's products.
ghost use Rattle.std.specs.Prelude.{◌≡◌, ℕ, Bool, IfOk, IfErr, OnErr, IfSome, IfNone};
ghost use Rattle.dd_store.specs.Changes.{Keeps};
ghost use Rattle.dd_store.specs.Exhausted.{value_at};
ghost use Rattle.dd_store.specs.Handles.{KeepsHandles, GainsHandle};
ghost use Rattle.dd_store.specs.Table.{value_of};
ghost use Rattle.uvl_functions.specs.Cause.{IsShortFor};
ghost use Rattle.uvl_functions.specs.Functions.{products_of, model_function};
ghost use Rattle.uvl_functions.specs.Groups.{compile_groups};
ghost use Rattle.uvl_functions.specs.Variables.{HasVariables};

use crate::listed::listed;
use crate::plan::{near, upward};
use crate::planned::by_plan;
use dd_apply::Kernel;
use dd_store::{Handle, OutOfMemory, Refusal};
use std::alloc::Global;
use uvl_functions::{VarMap, models_give_products};
use uvl_model::Model;

/// A handle whose value for an assignment is whether the features with a true variable are a product of the model.
/// Other variables have no say.
///
/// Two plans go in front: each meets the conditions of the model in an order that keeps diagrams small. Where both meet
/// the budget, all is given back, and the order of the listed groups is gone, of which alone a refusal speaks.
pub fn compile(
    kernel: &mut Kernel,
    alloc: Global,
    model: &Model,
    map: &VarMap,
) -> Result<Handle, Refusal>
    requires { HasVariables kernel.old model.now map.now }
    ensures value { IfOk result (λ h. (a : ℕ → Bool) → value_of kernel.new h a ≡ products_of map.now model.now a) }
    ensures gained { IfOk result (GainsHandle kernel.old kernel.new) }
    ensures refused { OnErr result (KeepsHandles kernel.old kernel.new) }
    ensures keeps { Keeps kernel.old kernel.new }
    ensures cause { IfErr result (IsShortFor kernel.old (compile_groups map.now model.now)) }
{
    models_give_products();
    model.rules();
    let made = fast(kernel, alloc, model, map)?;
    match made {
        Some(products) => Ok(products),
        None => {
            kernel.collect();
            listed(kernel, alloc, model, map)
        }
    }
}

/// The same by one of the plans; none where each of them meets the budget.
fn fast(
    kernel: &mut Kernel,
    alloc: Global,
    model: &Model,
    map: &VarMap,
) -> Result<Option<Handle>, OutOfMemory>
    requires { HasVariables kernel.old model.now map.now }
    ensures value { IfOk result (λ made. IfSome made (λ h.
        value_at kernel.new h ≡ model_function map.now model.now model.now.rules)) }
    ensures gained { IfOk result (λ made. IfSome made (GainsHandle kernel.old kernel.new)) }
    ensures none { IfOk result (λ made. IfNone made (KeepsHandles kernel.old kernel.new)) }
    ensures refused { OnErr result (KeepsHandles kernel.old kernel.new) }
    ensures keeps { Keeps kernel.old kernel.new }
{
    kernel.nodes();
    let first = near(alloc, model)?;
    let made = by_plan(kernel, alloc, model, map, &first)?;
    match made {
        Some(products) => Ok(Some(products)),
        None => {
            let second = upward(alloc, model)?;
            by_plan(kernel, alloc, model, map, &second)
        }
    }
}
