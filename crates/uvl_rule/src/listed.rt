//! A rule as it is written: left operands from the innermost outward, each held while its right operand is made.
ghost use Rattle.std.specs.Prelude.{◌≡◌, ℕ, Bool, Some, IfOk, IfErr, OnErr};
ghost use Rattle.dd_store.specs.Changes.{Keeps};
ghost use Rattle.dd_store.specs.Exhausted.{value_at};
ghost use Rattle.dd_store.specs.Handles.{GainsHandle, KeepsHandles, LosesHandle};
ghost use Rattle.dd_store.specs.Table.{IsLive, value_of};
ghost use Rattle.uvl_model.specs.declared.rule.Rule.{Rule as AnyRule};
ghost use Rattle.uvl_functions.specs.Cause.{IsShortFor};
ghost use Rattle.uvl_rule.specs.Connectives.{connection};
ghost use Rattle.uvl_functions.specs.Groups.{rule_groups};
ghost use Rattle.uvl_rule.specs.Spine.{left_operand, groups_above, groups_beside};
ghost use Rattle.uvl_functions.specs.Trade.{Replaces};
ghost use Rattle.uvl_functions.specs.Functions.{rule_function};
ghost use Rattle.uvl_functions.specs.Variables.{HasVariables};
ghost use Rattle.uvl_model.specs.Amounts.{IsReadable};

use crate::connective::{Connective, connect, negate};
use crate::leaf::leaf;
use crate::spine::spine_of;
use dd_apply::Kernel;
use dd_store::{Handle, Refusal};
use std::alloc::Global;
use uvl_functions::VarMap;
use uvl_model::{Model, Rule};

/// A handle whose value says whether a rule holds for the features whose variables are true. A feature without a
/// variable counts as no.
///
/// The way down the left operands is a loop, and only right operands are calls: a rule of a model has no node in more
/// than 516 of them, and each is three calls deep. While a right operand is made, the left operand beside it is held,
/// and nothing else.
#[cycle(rule)]
pub fn listed_rule(
    kernel: &mut Kernel,
    alloc: Global,
    model: &Model,
    map: &VarMap,
    rule: &Rule,
) -> Result<Handle, Refusal>
    requires variables { HasVariables kernel.old model.now map.now }
    requires readable { IsReadable model.now rule.now }
    ensures value { IfOk result (λ h. (a : ℕ → Bool) →
        value_of kernel.new h a ≡ rule_function map.now model.now.features rule.now a) }
    ensures gained { IfOk result (GainsHandle kernel.old kernel.new) }
    ensures refused { OnErr result (KeepsHandles kernel.old kernel.new) }
    ensures keeps { Keeps kernel.old kernel.new }
    ensures cause { IfErr result (IsShortFor kernel.old (rule_groups map.now model.now.features rule.now)) }
{
    let _order = kernel.order();
    let (mut nodes, part) = spine_of(alloc, rule)?;
    let mut made = leaf(kernel, alloc, model, map, part)?;
    while let Some(node) = nodes.pop() {
        made = climb(kernel, alloc, model, map, node, made)?;
    }
    Ok(made)
}

/// The handle of a node, in place of that of its left operand.
#[cycle(rule)]
fn climb(
    kernel: &mut Kernel,
    alloc: Global,
    model: &Model,
    map: &VarMap,
    node: &Rule,
    made: Handle,
) -> Result<Handle, Refusal>
    requires variables { HasVariables kernel.old model.now map.now }
    requires readable { IsReadable model.now node.now }
    requires live { IsLive kernel.old made }
    requires left { (left : AnyRule) × (left_operand node.now ≡ Some left)
        × (value_at kernel.old made ≡ rule_function map.now model.now.features left) }
    ensures value { IfOk result (λ h. value_at kernel.new h ≡ rule_function map.now model.now.features node.now) }
    ensures replaced { IfOk result (Replaces kernel.old kernel.new made) }
    ensures lost { OnErr result (LosesHandle kernel.old kernel.new made) }
    ensures keeps { Keeps kernel.old kernel.new }
    ensures cause { IfErr result (IsShortFor kernel.old (groups_above map.now model.now.features node.now)) }
{
    match node {
        Rule::Feature(_) | Rule::Compare(_, _, _) => Ok(made),
        Rule::Not(_) => negate(kernel, alloc, made),
        Rule::And(_, right) => climb_both(
            kernel,
            alloc,
            model,
            map,
            Connective::And,
            made,
            right.get(),
        ),
        Rule::Or(_, right) => climb_both(
            kernel,
            alloc,
            model,
            map,
            Connective::Or,
            made,
            right.get(),
        ),
        Rule::Implies(_, right) => climb_both(
            kernel,
            alloc,
            model,
            map,
            Connective::Implies,
            made,
            right.get(),
        ),
        Rule::Iff(_, right) => climb_both(
            kernel,
            alloc,
            model,
            map,
            Connective::Iff,
            made,
            right.get(),
        ),
    }
}

/// What a connective makes of a handle and a right operand, in place of the handle, which is held while that is made.
#[cycle(rule)]
fn climb_both(
    kernel: &mut Kernel,
    alloc: Global,
    model: &Model,
    map: &VarMap,
    connective: Connective,
    made: Handle,
    right: &Rule,
) -> Result<Handle, Refusal>
    requires variables { HasVariables kernel.old model.now map.now }
    requires readable { IsReadable model.now right.now }
    requires live { IsLive kernel.old made }
    ensures value { IfOk result (λ h. value_at kernel.new h
        ≡ connection connective (value_at kernel.old made) (rule_function map.now model.now.features right.now)) }
    ensures replaced { IfOk result (Replaces kernel.old kernel.new made) }
    ensures lost { OnErr result (LosesHandle kernel.old kernel.new made) }
    ensures keeps { Keeps kernel.old kernel.new }
    ensures cause { IfErr result (IsShortFor kernel.old
        (groups_beside connective map.now model.now.features (value_at kernel.old made) right.now)) }
{
    match listed_rule(kernel, alloc, model, map, right) {
        Ok(handle) => connect(kernel, alloc, connective, made, handle),
        Err(refusal) => {
            kernel.release(made);
            Err(refusal)
        }
    }
}
