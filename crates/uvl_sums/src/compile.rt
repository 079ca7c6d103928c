//! Comparisons of sums as decision diagrams.
ghost use Rattle.std.specs.Prelude.{◌≡◌, ℕ, ◌+◌, ◌^◌, Bool, [], ◌∷◌, ◌++◌, length, IfOk, IfErr, OnErr};
ghost use Rattle.dd_store.specs.Changes.{Keeps};
ghost use Rattle.dd_store.specs.Exhausted.{value_at};
ghost use Rattle.dd_store.specs.Handles.{KeepsHandles, GainsHandle, HoldsMore};
ghost use Rattle.dd_store.specs.Table.{value_of};
ghost use Rattle.dd_apply.specs.Held.{IsCauseWithin};
ghost use Rattle.uvl_sums.specs.Steps.{terms_of, remaining, ArePlanned, IsSmall};
ghost use Rattle.uvl_sums.specs.Sums.{comparison, IsSum, IsCauseOfSum};

use crate::linear::{Cmp3, Linear};
use crate::memo::Memo;
use crate::part::part_from;
use crate::steps::Plan;
use dd_apply::Kernel;
use dd_store::{Handle, Refusal};
use std::alloc::Global;

/// A handle whose value is true where the weights of the true variables, together with the constant, compare so with 0.
///
/// The variables of the terms have to be there and to differ, and the sizes of the weights and of the constant to add up
/// to less than 2^126.
///
/// It goes down the terms from the top level. What is left of the comparison behind some of them is known by the sum so
/// far, and is the same for all sums of an interval, which is kept with it: so it is made once for each such interval
/// (Abío, Nieuwenhuis, Oliveras, Rodríguez-Carbonell and Mayer-Eichberger 2012). Below the least total and above the
/// greatest that can be reached a constant is left.
pub fn compile_sum(
    kernel: &mut Kernel,
    alloc: Global,
    sum: &Linear,
    how: Cmp3,
) -> Result<Handle, Refusal>
    requires { IsSum kernel.old sum.now.terms.items sum.now.constant }
    ensures value { IfOk result (λ h. (a : ℕ → Bool) →
        value_of kernel.new h a ≡ comparison how sum.now.terms.items sum.now.constant a) }
    ensures gained { IfOk result (GainsHandle kernel.old kernel.new) }
    ensures refused { OnErr result (KeepsHandles kernel.old kernel.new) }
    ensures keeps { Keeps kernel.old kernel.new }
    ensures cause { IfErr result (IsCauseOfSum kernel.old kernel.new
        (comparison how sum.now.terms.items sum.now.constant)) }
{
    // The table is sound also where nothing is done.
    let _order = kernel.order();
    let plan = Plan::new(kernel, alloc, sum, how)?;
    let mut held = Vec::new(alloc);
    let made = compile_plan(kernel, alloc, &plan, &mut held);
    kernel.release_all(held);
    made
}

/// A handle on the whole of a plan, beside the partial results, which are the caller's to give back.
fn compile_plan(
    kernel: &mut Kernel,
    alloc: Global,
    plan: &Plan,
    held: &mut Vec<Handle>,
) -> Result<Handle, Refusal>
    requires planned { ArePlanned kernel.old.order plan.now.steps.items }
    requires small { IsSmall (terms_of plan.now.steps.items) plan.now.start }
    requires empty { held.old.items ≡ [] }
    ensures value { IfOk result (λ h. value_at kernel.new h
        ≡ remaining plan.now.exact (terms_of plan.now.steps.items) plan.now.start) }
    ensures gained { IfOk result (λ h. HoldsMore kernel.old kernel.new (held.new.items ++ h ∷ [])) }
    ensures refused { OnErr result (HoldsMore kernel.old kernel.new held.new.items) }
    ensures keeps { Keeps kernel.old kernel.new }
    ensures cause { IfErr result (IsCauseWithin kernel.old kernel.new
        (remaining plan.now.exact (terms_of plan.now.steps.items) plan.now.start)
        (2 ^ (length plan.now.steps.items + 1))) }
{
    let mut memo = Memo::new(alloc);
    let whole = part_from(kernel, alloc, plan, 0, plan.start, held, &mut memo)?;
    Ok(kernel.copy(&held[whole.place])?)
}
