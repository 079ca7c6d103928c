//! The partial results of a comparison: what is left of it behind the first terms.
ghost use Rattle.std.specs.Prelude.{◌≡◌, ◌+◌, ◌^◌, ◌<◌, ◌≤◌, ℤ, ◌+ℤ◌, length, IfOk, IfErr, IfSome, IfNone};
ghost use Rattle.dd_apply.specs.Held.{IsCauseWithin};
ghost use Rattle.dd_count.specs.States.{AreHeld};
ghost use Rattle.uvl_sums.specs.Steps.{terms_from, remaining, ArePlanned, IsSmall};
ghost use Rattle.uvl_sums.specs.Parts.{Adds, AreKnown, AreHalves, IsPartFor};

use crate::hold::{hold_constant, hold_fork};
use crate::memo::{Memo, Part};
use crate::settle::settle;
use crate::steps::Plan;
use dd_apply::Kernel;
use dd_store::{Handle, OutOfMemory, Refusal};
use std::alloc::Global;

/// What is left of a comparison behind its first terms, of which there are `at`, for their sum with the start.
///
/// It goes into itself once a term, so it is never deeper in itself than there are levels.
pub(crate) fn part_from(
    kernel: &mut Kernel,
    alloc: Global,
    plan: &Plan,
    at: usize,
    so_far: i128,
    held: &mut Vec<Handle>,
    memo: &mut Memo,
) -> Result<Part, Refusal>
    requires planned { ArePlanned kernel.old.order plan.now.steps.items }
    requires small { IsSmall (terms_from plan.now.steps.items at) so_far }
    requires held { AreHeld kernel.old held.old.items }
    requires known { AreKnown kernel.old held.old.items plan.now.exact plan.now.steps.items memo.old.known }
    ensures part { IfOk result (IsPartFor kernel.new held.new.items plan.now.exact
        (terms_from plan.now.steps.items at) so_far) }
    ensures known { AreKnown kernel.new held.new.items plan.now.exact plan.now.steps.items memo.new.known }
    ensures adds { Adds kernel.old held.old.items kernel.new held.new.items
        (remaining plan.now.exact (terms_from plan.now.steps.items at) so_far)
        (2 ^ (length (terms_from plan.now.steps.items at) + 1)) }
    ensures cause { IfErr result (IsCauseWithin kernel.old kernel.new
        (remaining plan.now.exact (terms_from plan.now.steps.items at) so_far)
        (2 ^ (length (terms_from plan.now.steps.items at) + 1))) }
{
    match known_part(kernel, plan, at, so_far, held, memo)? {
        Some(part) => Ok(part),
        None => {
            let weight = plan.steps[at].weight;
            let low = part_from(kernel, alloc, plan, at + 1, so_far, held, memo)?;
            let high = part_from(kernel, alloc, plan, at + 1, so_far + weight, held, memo)?;
            join(kernel, alloc, plan, at, low, high, held, memo)
        }
    }
}

/// The same, where it is a constant or known already.
fn known_part(
    kernel: &mut Kernel,
    plan: &Plan,
    at: usize,
    so_far: i128,
    held: &mut Vec<Handle>,
    memo: &Memo,
) -> Result<Option<Part>, OutOfMemory>
    requires planned { ArePlanned kernel.old.order plan.now.steps.items }
    requires small { IsSmall (terms_from plan.now.steps.items at) so_far }
    requires held { AreHeld kernel.old held.old.items }
    requires known { AreKnown kernel.old held.old.items plan.now.exact plan.now.steps.items memo.now.known }
    ensures part { IfOk result (λ known. IfSome known (IsPartFor kernel.new held.new.items plan.now.exact
        (terms_from plan.now.steps.items at) so_far)) }
    ensures left { IfOk result (λ known. IfNone known (at < length plan.now.steps.items)) }
    ensures known { AreKnown kernel.new held.new.items plan.now.exact plan.now.steps.items memo.now.known }
    ensures adds { Adds kernel.old held.old.items kernel.new held.new.items
        (remaining plan.now.exact (terms_from plan.now.steps.items at) so_far) 2 }
    ensures none { IfOk result (λ known. IfNone known (Adds kernel.old held.old.items kernel.new held.new.items
        (remaining plan.now.exact (terms_from plan.now.steps.items at) so_far) 1)) }
{
    // The table is sound also where nothing is done.
    let _order = kernel.order();
    let (least, greatest) = plan.reach(at);
    match settle(plan.exact, so_far, least, greatest) {
        Some(settled) => {
            let place = hold_constant(kernel, settled.value, held)?;
            Ok(Some(Part {
                place,
                least: settled.least,
                greatest: settled.greatest,
            }))
        }
        None => Ok(memo.recall(at, so_far)),
    }
}

/// The part of the terms from this place on, by its halves: the parts of the terms behind the first one, with its
/// variable false and with it true.
fn join(
    kernel: &mut Kernel,
    alloc: Global,
    plan: &Plan,
    at: usize,
    low: Part,
    high: Part,
    held: &mut Vec<Handle>,
    memo: &mut Memo,
) -> Result<Part, Refusal>
    requires planned { ArePlanned kernel.old.order plan.now.steps.items }
    requires at { at < length plan.now.steps.items }
    requires halves { (so_far : ℤ) × AreHalves kernel.old held.old.items plan.now.exact plan.now.steps.items at
        low high so_far }
    requires held { AreHeld kernel.old held.old.items }
    requires known { AreKnown kernel.old held.old.items plan.now.exact plan.now.steps.items memo.old.known }
    ensures part { (so_far : ℤ) → AreHalves kernel.old held.old.items plan.now.exact plan.now.steps.items at
        low high so_far → IfOk result (IsPartFor kernel.new held.new.items plan.now.exact
        (terms_from plan.now.steps.items at) so_far) }
    ensures known { AreKnown kernel.new held.new.items plan.now.exact plan.now.steps.items memo.new.known }
    ensures adds { (so_far : ℤ) → AreHalves kernel.old held.old.items plan.now.exact plan.now.steps.items at
        low high so_far → Adds kernel.old held.old.items kernel.new held.new.items
        (remaining plan.now.exact (terms_from plan.now.steps.items at) so_far) 2 }
    ensures cause { (so_far : ℤ) → AreHalves kernel.old held.old.items plan.now.exact plan.now.steps.items at
        low high so_far → IfErr result (IsCauseWithin kernel.old kernel.new
        (remaining plan.now.exact (terms_from plan.now.steps.items at) so_far) 0) }
{
    // The table is sound also where nothing is done.
    let _order = kernel.order();
    let step = plan.steps[at];
    let place = hold_fork(kernel, alloc, step.var, low.place, high.place, held)?;
    let part = Part {
        place,
        least: low.least.max(high.least - step.weight),
        greatest: low.greatest.min(high.greatest - step.weight),
    };
    memo.remember(at, part)?;
    Ok(part)
}
