//! A rule the quick way: a chain of one `&` or `|` is combined in halves.
ghost use Rattle.std.specs.Prelude.{◌≡◌, ◌⊎◌, ◌<◌, ℕ, Bool, length, IsTrue, IfOk, OnErr};
ghost use Rattle.std.specs.List.{All};
ghost use Rattle.dd_store.specs.Changes.{Keeps};
ghost use Rattle.dd_store.specs.Exhausted.{value_at};
ghost use Rattle.dd_store.specs.Handles.{GainsHandle, KeepsHandles, LosesHandle};
ghost use Rattle.dd_store.specs.Table.{IsLive, value_of};
ghost use Rattle.uvl_functions.specs.Functions.{rule_function};
ghost use Rattle.uvl_functions.specs.Trade.{Replaces};
ghost use Rattle.uvl_functions.specs.Variables.{HasVariables};
ghost use Rattle.uvl_model.specs.Amounts.{IsReadable};
ghost use Rattle.uvl_model.specs.declared.rule.Rule.{Rule as AnyRule};
ghost use Rattle.uvl_rule.specs.Run.{IsRun, function_or_no, gathered, regroups, right_operand};
ghost use Rattle.uvl_rule.specs.Spine.{IsSpine, rules_at};

use crate::connective::{Connective, connect, negate};
use crate::leaf::leaf;
use crate::run::{connective_of, right_of, run_start};
use crate::spine::spine_of;
use dd_apply::Kernel;
use dd_store::{Handle, Refusal};
use std::alloc::Global;
use uvl_functions::VarMap;
use uvl_model::{Model, Rule};

/// A handle whose value says whether a rule holds for the features whose variables are true, as that of `listed_rule`.
/// Nothing is said of why it is refused for the budget: the halves of a chain aren't parts of the rule.
///
/// As it is written, a chain of n literals makes a diagram of each of its fronts, some n * n / 2 nodes where the
/// literals go down the order; in halves it makes some n * log n. Each right operand is four calls deep, and one more
/// for each halving of its chain: in a rule of a model, with its 8,192 nodes at most, fewer than 4,200 calls are open at
/// once.
#[cycle(quick)]
pub fn quick_rule(
    kernel: &mut Kernel,
    alloc: Global,
    model: &Model,
    map: &VarMap,
    rule: &Rule,
) -> Result<Handle, Refusal>
    requires variables { HasVariables kernel.old model.now map.now }
    requires readable { IsReadable model.now rule.now }
    ensures value { IfOk result (λ h. (a : ℕ → Bool) →
        value_of kernel.new h a ≡ rule_function map.now model.now.features rule.now a) }
    ensures gained { IfOk result (GainsHandle kernel.old kernel.new) }
    ensures refused { OnErr result (KeepsHandles kernel.old kernel.new) }
    ensures keeps { Keeps kernel.old kernel.new }
{
    let _order = kernel.order();
    let (mut nodes, part) = spine_of(alloc, rule)?;
    let mut made = leaf(kernel, alloc, model, map, part)?;
    while !nodes.is_empty() {
        let start = run_start(&nodes);
        let (_above, run) = nodes.split_at(start);
        made = rise(kernel, alloc, model, map, run, made)?;
        nodes.truncate(start);
    }
    Ok(made)
}

/// The handle of the top of a run, in place of that of the part below it.
#[cycle(quick)]
fn rise(
    kernel: &mut Kernel,
    alloc: Global,
    model: &Model,
    map: &VarMap,
    run: &[&Rule],
    made: Handle,
) -> Result<Handle, Refusal>
    requires variables { HasVariables kernel.old model.now map.now }
    requires live { IsLive kernel.old made }
    requires readable { All (IsReadable model.now) (rules_at run.now) }
    requires some { 0 < length run.now }
    requires run { IsRun (rules_at run.now) }
    ensures value { (part top : AnyRule) → IsSpine (rules_at run.now) part top →
        value_at kernel.old made ≡ rule_function map.now model.now.features part →
        IfOk result (λ h. value_at kernel.new h ≡ rule_function map.now model.now.features top) }
    ensures replaced { IfOk result (Replaces kernel.old kernel.new made) }
    ensures lost { OnErr result (LosesHandle kernel.old kernel.new made) }
    ensures keeps { Keeps kernel.old kernel.new }
{
    match connective_of(run[0]) {
        None => negate(kernel, alloc, made),
        Some(connective) => match gather(kernel, alloc, model, map, connective, run) {
            Ok(right) => connect(kernel, alloc, connective, made, right),
            Err(refusal) => {
                kernel.release(made);
                Err(refusal)
            }
        },
    }
}

/// What a connective makes of the right operands of a run, in halves.
#[cycle(quick)]
fn gather(
    kernel: &mut Kernel,
    alloc: Global,
    model: &Model,
    map: &VarMap,
    connective: Connective,
    run: &[&Rule],
) -> Result<Handle, Refusal>
    requires variables { HasVariables kernel.old model.now map.now }
    requires readable { All (IsReadable model.now) (rules_at run.now) }
    requires some { 0 < length run.now }
    requires grouping { (length run.now ≡ 1) ⊎ IsTrue (regroups connective) }
    ensures value { IfOk result (λ h. value_at kernel.new h
        ≡ gathered connective map.now model.now.features (rules_at run.now)) }
    ensures gained { IfOk result (GainsHandle kernel.old kernel.new) }
    ensures refused { OnErr result (KeepsHandles kernel.old kernel.new) }
    ensures keeps { Keeps kernel.old kernel.new }
{
    if run.len() == 1 {
        return right_rule(kernel, alloc, model, map, run[0]);
    }
    let (front, back) = run.split_at(run.len() / 2);
    let first = gather(kernel, alloc, model, map, connective, front)?;
    match gather(kernel, alloc, model, map, connective, back) {
        Ok(second) => connect(kernel, alloc, connective, first, second),
        Err(refusal) => {
            kernel.release(first);
            Err(refusal)
        }
    }
}

/// The handle of a node's right operand.
#[cycle(quick)]
fn right_rule(
    kernel: &mut Kernel,
    alloc: Global,
    model: &Model,
    map: &VarMap,
    node: &Rule,
) -> Result<Handle, Refusal>
    requires variables { HasVariables kernel.old model.now map.now }
    requires readable { IsReadable model.now node.now }
    ensures value { IfOk result (λ h.
        value_at kernel.new h ≡ function_or_no map.now model.now.features (right_operand node.now)) }
    ensures gained { IfOk result (GainsHandle kernel.old kernel.new) }
    ensures refused { OnErr result (KeepsHandles kernel.old kernel.new) }
    ensures keeps { Keeps kernel.old kernel.new }
{
    match right_of(node) {
        Some(right) => quick_rule(kernel, alloc, model, map, right),
        None => Ok(kernel.constant(false)?),
    }
}
