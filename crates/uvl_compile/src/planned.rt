//! The diagram of a model's products by a plan.
ghost use Rattle.std.specs.Prelude.{◌≡◌, ◌<◌, ◌≤◌, false, length, IfOk, IfSome, IfNone, OnErr};
ghost use Rattle.std.specs.List.{All, list_all};
ghost use Rattle.dd_store.specs.Changes.{Keeps};
ghost use Rattle.dd_store.specs.Exhausted.{value_at};
ghost use Rattle.dd_store.specs.Handles.{KeepsHandles, GainsHandle, LosesHandle};
ghost use Rattle.dd_store.specs.Size.{Function};
ghost use Rattle.dd_store.specs.Table.{IsLive};
ghost use Rattle.uvl_functions.specs.Functions.{model_function};
ghost use Rattle.uvl_functions.specs.Variables.{HasVariables};
ghost use Rattle.uvl_functions.specs.Trade.{Replaces};
ghost use Rattle.uvl_compile.specs.Conditions.{conditions, condition_at, so_far, both};

use crate::meet::meet;
use crate::row::group_row;
use dd_apply::Kernel;
use dd_store::{Handle, OutOfMemory, Refusal};
use std::alloc::{AllocError, Global};
use uvl_functions::{VarMap, literal};
use uvl_model::{FeatureNo, Model};
use uvl_rule::quick_rule;

/// How many nodes one condition may make without being the last one of its batch.
const FEW_NODES: u32 = 128;

/// The diagram of a model's products by a plan; none where the budget is met on the way, or the plan leaves a condition
/// out.
pub(crate) fn by_plan(
    kernel: &mut Kernel,
    alloc: Global,
    model: &Model,
    map: &VarMap,
    plan: &[usize],
) -> Result<Option<Handle>, OutOfMemory>
    requires { HasVariables kernel.old model.now map.now }
    ensures value { IfOk result (λ made. IfSome made (λ h.
        value_at kernel.new h ≡ model_function map.now model.now model.now.rules)) }
    ensures gained { IfOk result (λ made. IfSome made (GainsHandle kernel.old kernel.new)) }
    ensures none { IfOk result (λ made. IfNone made (KeepsHandles kernel.old kernel.new)) }
    ensures refused { OnErr result (KeepsHandles kernel.old kernel.new) }
    ensures keeps { Keeps kernel.old kernel.new }
{
    match planned(kernel, alloc, model, map, plan) {
        Ok(made) => Ok(made),
        Err(Refusal::OverBudget { .. }) => Ok(None),
        Err(Refusal::OutOfMemory) => Err(AllocError),
    }
}

/// The same, with the refusal.
fn planned(
    kernel: &mut Kernel,
    alloc: Global,
    model: &Model,
    map: &VarMap,
    plan: &[usize],
) -> Result<Option<Handle>, Refusal>
    requires { HasVariables kernel.old model.now map.now }
    ensures value { IfOk result (λ made. IfSome made (λ h.
        value_at kernel.new h ≡ model_function map.now model.now model.now.rules)) }
    ensures gained { IfOk result (λ made. IfSome made (GainsHandle kernel.old kernel.new)) }
    ensures none { IfOk result (λ made. IfNone made (KeepsHandles kernel.old kernel.new)) }
    ensures refused { OnErr result (KeepsHandles kernel.old kernel.new) }
    ensures keeps { Keeps kernel.old kernel.new }
{
    // The table is sound also where nothing is done.
    kernel.nodes();
    let mut done = marks(alloc, model.groups().len() + model.rules().len())?;
    by_marks(kernel, alloc, model, map, plan, &mut done)
}

/// The same, with a mark for each condition, none of which is set.
fn by_marks(
    kernel: &mut Kernel,
    alloc: Global,
    model: &Model,
    map: &VarMap,
    plan: &[usize],
    done: &mut [bool],
) -> Result<Option<Handle>, Refusal>
    requires variables { HasVariables kernel.old model.now map.now }
    requires count { length done.old ≡ length (conditions map.now model.now) }
    requires none { All (λ mark. mark ≡ false) done.old }
    ensures value { IfOk result (λ made. IfSome made (λ h.
        value_at kernel.new h ≡ model_function map.now model.now model.now.rules)) }
    ensures gained { IfOk result (λ made. IfSome made (GainsHandle kernel.old kernel.new)) }
    ensures none { IfOk result (λ made. IfNone made (KeepsHandles kernel.old kernel.new)) }
    ensures refused { OnErr result (KeepsHandles kernel.old kernel.new) }
    ensures keeps { Keeps kernel.old kernel.new }
{
    let held = follow(kernel, alloc, model, map, plan, done)?;
    if all_done(done) {
        return Ok(Some(held));
    }
    kernel.release(held);
    Ok(None)
}

/// So many marks, none of which is set.
fn marks(alloc: Global, count: usize) -> Result<Vec<bool>, OutOfMemory>
    ensures count { IfOk result (λ marks. length marks.items ≡ count) }
    ensures none { IfOk result (λ marks. All (λ mark. mark ≡ false) marks.items) }
{
    vec![in alloc; false; count]
}

/// Whether all marks are set.
fn all_done(marks: &[bool]) -> bool
    ensures { result ≡ list_all (λ mark. mark) marks.now }
{
    marks.iter().all(|mark| *mark)
}

/// Meets the conditions of a plan in its order, batch by batch, and marks them.
fn follow(
    kernel: &mut Kernel,
    alloc: Global,
    model: &Model,
    map: &VarMap,
    plan: &[usize],
    done: &mut [bool],
) -> Result<Handle, Refusal>
    requires variables { HasVariables kernel.old model.now map.now }
    requires count { length done.old ≡ length (conditions map.now model.now) }
    requires none { All (λ mark. mark ≡ false) done.old }
    ensures so_far { IfOk result (λ h. value_at kernel.new h ≡ so_far map.now model.now done.new) }
    ensures count { length done.new ≡ length done.old }
    ensures gained { IfOk result (GainsHandle kernel.old kernel.new) }
    ensures refused { OnErr result (KeepsHandles kernel.old kernel.new) }
    ensures keeps { Keeps kernel.old kernel.new }
{
    model.features();
    let mut held = literal(kernel, alloc, map.of(FeatureNo(0)))?;
    let mut taken = 0;
    while taken < plan.len() {
        let (left, count) = with_batch(kernel, alloc, model, map, &plan[taken..], done, held)?;
        held = left;
        taken += count;
    }
    Ok(held)
}

/// Meets the conditions of a batch, and marks them. Answers how many of the plan's it took.
fn with_batch(
    kernel: &mut Kernel,
    alloc: Global,
    model: &Model,
    map: &VarMap,
    plan: &[usize],
    done: &mut [bool],
    held: Handle,
) -> Result<(Handle, usize), Refusal>
    requires variables { HasVariables kernel.old model.now map.now }
    requires some { 0 < length plan.now }
    requires live { IsLive kernel.old held }
    requires count { length done.old ≡ length (conditions map.now model.now) }
    requires so_far { value_at kernel.old held ≡ so_far map.now model.now done.old }
    ensures so_far { IfOk result (λ p. value_at kernel.new p.0 ≡ so_far map.now model.now done.new) }
    ensures taken { IfOk result (λ p. (0 < p.1) × (p.1 ≤ length plan.now)) }
    ensures count { length done.new ≡ length done.old }
    ensures replaced { IfOk result (λ p. Replaces kernel.old kernel.new held p.0) }
    ensures lost { OnErr result (LosesHandle kernel.old kernel.new held) }
    ensures keeps { Keeps kernel.old kernel.new }
{
    match batch(kernel, alloc, model, map, plan, done) {
        Ok((made, taken)) => {
            let met = meet(kernel, alloc, held, made)?;
            Ok((met, taken))
        }
        Err(refusal) => {
            kernel.release(held);
            Err(refusal)
        }
    }
}

/// The diagram of the first conditions of a plan, which are marked, and how many those are: up to one that makes many
/// nodes. What is held is large, so it is met once for all of them; a diagram of them alone is small as long as few
/// nodes are made for it.
fn batch(
    kernel: &mut Kernel,
    alloc: Global,
    model: &Model,
    map: &VarMap,
    plan: &[usize],
    done: &mut [bool],
) -> Result<(Handle, usize), Refusal>
    requires variables { HasVariables kernel.old model.now map.now }
    requires some { 0 < length plan.now }
    requires count { length done.old ≡ length (conditions map.now model.now) }
    ensures so_far { IfOk result (λ p.
        both (so_far map.now model.now done.old) (value_at kernel.new p.0) ≡ so_far map.now model.now done.new) }
    ensures taken { IfOk result (λ p. (0 < p.1) × (p.1 ≤ length plan.now)) }
    ensures count { length done.new ≡ length done.old }
    ensures gained { IfOk result (λ p. GainsHandle kernel.old kernel.new p.0) }
    ensures refused { OnErr result (KeepsHandles kernel.old kernel.new) }
    ensures keeps { Keeps kernel.old kernel.new }
{
    let mut made = kernel.constant(true)?;
    for (at, number) in plan.iter().enumerate() {
        let before = kernel.nodes();
        made = meet_once(kernel, alloc, model, map, *number, done, made)?;
        if kernel.nodes().saturating_sub(before) > FEW_NODES {
            return Ok((made, at + 1));
        }
    }
    Ok((made, plan.len()))
}

/// Meets a condition, unless it is marked, and marks it: what the handle says with another function, so that both are
/// what is met so far, it then says with one more.
fn meet_once(
    kernel: &mut Kernel,
    alloc: Global,
    model: &Model,
    map: &VarMap,
    number: usize,
    done: &mut [bool],
    held: Handle,
) -> Result<Handle, Refusal>
    requires variables { HasVariables kernel.old model.now map.now }
    requires live { IsLive kernel.old held }
    requires count { length done.old ≡ length (conditions map.now model.now) }
    ensures so_far { IfOk result (λ h. (f : Function) →
        both f (value_at kernel.old held) ≡ so_far map.now model.now done.old →
        both f (value_at kernel.new h) ≡ so_far map.now model.now done.new) }
    ensures count { length done.new ≡ length done.old }
    ensures replaced { IfOk result (Replaces kernel.old kernel.new held) }
    ensures lost { OnErr result (LosesHandle kernel.old kernel.new held) }
    ensures keeps { Keeps kernel.old kernel.new }
{
    // The table is sound also where nothing is done.
    kernel.nodes();
    if number >= done.len() {
        return Ok(held);
    }
    if done[number] {
        return Ok(held);
    }
    let met = with_condition(kernel, alloc, model, map, number, held)?;
    done[number] = true;
    Ok(met)
}

/// A handle whose value is true where that of another one is and a condition holds, in its place.
fn with_condition(
    kernel: &mut Kernel,
    alloc: Global,
    model: &Model,
    map: &VarMap,
    number: usize,
    held: Handle,
) -> Result<Handle, Refusal>
    requires variables { HasVariables kernel.old model.now map.now }
    requires live { IsLive kernel.old held }
    requires number { number < length (conditions map.now model.now) }
    ensures value { IfOk result (λ h. value_at kernel.new h ≡
        both (value_at kernel.old held) (condition_at map.now model.now number)) }
    ensures replaced { IfOk result (Replaces kernel.old kernel.new held) }
    ensures lost { OnErr result (LosesHandle kernel.old kernel.new held) }
    ensures keeps { Keeps kernel.old kernel.new }
{
    match condition(kernel, alloc, model, map, number) {
        Ok(made) => meet(kernel, alloc, held, made),
        Err(refusal) => {
            kernel.release(held);
            Err(refusal)
        }
    }
}

/// The diagram of one condition.
fn condition(
    kernel: &mut Kernel,
    alloc: Global,
    model: &Model,
    map: &VarMap,
    number: usize,
) -> Result<Handle, Refusal>
    requires variables { HasVariables kernel.old model.now map.now }
    requires number { number < length (conditions map.now model.now) }
    ensures value { IfOk result (λ h. value_at kernel.new h ≡ condition_at map.now model.now number) }
    ensures gained { IfOk result (GainsHandle kernel.old kernel.new) }
    ensures refused { OnErr result (KeepsHandles kernel.old kernel.new) }
    ensures keeps { Keeps kernel.old kernel.new }
{
    let groups = model.groups();
    match groups.get(number) {
        Some(group) => group_row(kernel, alloc, model, map, group),
        None => {
            let rules = model.rules();
            let place = number - groups.len();
            quick_rule(kernel, alloc, model, map, &rules[place])
        }
    }
}
