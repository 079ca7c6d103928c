//! The diagram of a model's products as the groups of functions list it: the tree, and then rule by rule.
ghost use Rattle.std.specs.Prelude.{◌≡◌, IfOk, IfErr, OnErr};
ghost use Rattle.dd_store.specs.Changes.{Keeps};
ghost use Rattle.dd_store.specs.Exhausted.{value_at};
ghost use Rattle.dd_store.specs.Handles.{KeepsHandles, GainsHandle, LosesHandle};
ghost use Rattle.dd_store.specs.Table.{IsLive};
ghost use Rattle.uvl_model.specs.Amounts.{IsReadable};
ghost use Rattle.uvl_functions.specs.Cause.{IsShortFor};
ghost use Rattle.uvl_functions.specs.Functions.{model_function, rule_function};
ghost use Rattle.uvl_functions.specs.Groups.{compile_groups};
ghost use Rattle.uvl_functions.specs.Variables.{HasVariables};
ghost use Rattle.uvl_functions.specs.Trade.{Replaces};
ghost use Rattle.uvl_compile.specs.Conditions.{both};
ghost use Rattle.uvl_compile.specs.Steps.{step_groups};

use crate::meet::meet;
use crate::tree::compile_tree;
use dd_apply::Kernel;
use dd_store::{Handle, Refusal};
use std::alloc::Global;
use uvl_functions::{VarMap, models_give_products};
use uvl_model::{Model, Rule};
use uvl_rule::listed_rule;

/// The diagram of a model's products, with the cause of a refusal.
pub(crate) fn listed(
    kernel: &mut Kernel,
    alloc: Global,
    model: &Model,
    map: &VarMap,
) -> Result<Handle, Refusal>
    requires { HasVariables kernel.old model.now map.now }
    ensures value { IfOk result (λ h.
        value_at kernel.new h ≡ model_function map.now model.now model.now.rules) }
    ensures gained { IfOk result (GainsHandle kernel.old kernel.new) }
    ensures refused { OnErr result (KeepsHandles kernel.old kernel.new) }
    ensures keeps { Keeps kernel.old kernel.new }
    ensures cause { IfErr result (IsShortFor kernel.old (compile_groups map.now model.now)) }
{
    models_give_products();
    let mut products = compile_tree(kernel, alloc, model, map)?;
    for rule in model.rules() {
        products = with_rule(kernel, alloc, model, map, rule, products)?;
    }
    Ok(products)
}

/// A handle whose value is true where that of another one is and a rule holds, in its place.
fn with_rule(
    kernel: &mut Kernel,
    alloc: Global,
    model: &Model,
    map: &VarMap,
    rule: &Rule,
    held: Handle,
) -> Result<Handle, Refusal>
    requires variables { HasVariables kernel.old model.now map.now }
    requires readable { IsReadable model.now rule.now }
    requires live { IsLive kernel.old held }
    ensures value { IfOk result (λ h.
        value_at kernel.new h ≡ both (value_at kernel.old held) (rule_function map.now model.now.features rule.now)) }
    ensures replaced { IfOk result (Replaces kernel.old kernel.new held) }
    ensures lost { OnErr result (LosesHandle kernel.old kernel.new held) }
    ensures keeps { Keeps kernel.old kernel.new }
    ensures cause { IfErr result (IsShortFor kernel.old
        (step_groups map.now model.now.features (value_at kernel.old held) rule.now)) }
{
    match listed_rule(kernel, alloc, model, map, rule) {
        Ok(made) => meet(kernel, alloc, held, made),
        Err(refusal) => {
            kernel.release(held);
            Err(refusal)
        }
    }
}
