//! Rules without operands.
ghost use Rattle.std.specs.Prelude.{◌≡◌, [], ◌∷◌, None, IfOk, IfErr, OnErr};
ghost use Rattle.std.specs.List.{All};
ghost use Rattle.dd_store.specs.Changes.{Keeps};
ghost use Rattle.dd_store.specs.Exhausted.{value_at};
ghost use Rattle.dd_store.specs.Handles.{GainsHandle, KeepsHandles};
ghost use Rattle.dd_store.specs.Table.{IsVariable};
ghost use Rattle.uvl_functions.specs.Cause.{IsShortFor};
ghost use Rattle.uvl_functions.specs.Groups.{rule_groups};
ghost use Rattle.uvl_rule.specs.Spine.{left_operand};
ghost use Rattle.uvl_functions.specs.Variables.{HasVariables};
ghost use Rattle.uvl_model.specs.Amounts.{IsReadable};
ghost use Rattle.uvl_functions.specs.Functions.{is_chosen, rule_function};

use crate::comparison::compile_comparison;
use dd_apply::Kernel;
use dd_store::{Handle, Refusal};
use std::alloc::Global;
use uvl_functions::{VarMap, literal};
use uvl_model::{FeatureNo, Model, Rule};

/// The handle of a rule without operands: of a feature or of a comparison.
pub(crate) fn leaf(
    kernel: &mut Kernel,
    alloc: Global,
    model: &Model,
    map: &VarMap,
    rule: &Rule,
) -> Result<Handle, Refusal>
    requires variables { HasVariables kernel.old model.now map.now }
    requires readable { IsReadable model.now rule.now }
    requires no_operand { left_operand rule.now ≡ None }
    ensures value { IfOk result (λ h. value_at kernel.new h ≡ rule_function map.now model.now.features rule.now) }
    ensures gained { IfOk result (GainsHandle kernel.old kernel.new) }
    ensures refused { OnErr result (KeepsHandles kernel.old kernel.new) }
    ensures keeps { Keeps kernel.old kernel.new }
    ensures cause { IfErr result (IsShortFor kernel.old (rule_groups map.now model.now.features rule.now)) }
{
    match rule {
        Rule::Feature(feature) => selected(kernel, alloc, map, *feature),
        Rule::Compare(how, left, right) => compile_comparison(
            kernel,
            alloc,
            model,
            map,
            *how,
            left.get(),
            right.get(),
        ),
        _ => Ok(kernel.constant(false)?),
    }
}

/// The handle of a feature: its value is that of its variable. A feature without one counts as no; no caller has such.
fn selected(
    kernel: &mut Kernel,
    alloc: Global,
    map: &VarMap,
    feature: FeatureNo,
) -> Result<Handle, Refusal>
    requires { All (λ v. IsVariable kernel.old v.0) map.now }
    ensures value { IfOk result (λ h. value_at kernel.new h ≡ is_chosen map.now feature) }
    ensures gained { IfOk result (GainsHandle kernel.old kernel.new) }
    ensures refused { OnErr result (KeepsHandles kernel.old kernel.new) }
    ensures keeps { Keeps kernel.old kernel.new }
    ensures cause { IfErr result (IsShortFor kernel.old ([] ∷ [])) }
{
    match map.vars().get(feature.0 as usize) {
        Some(var) => literal(kernel, alloc, *var),
        None => Ok(kernel.constant(false)?),
    }
}
