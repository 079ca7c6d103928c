//! The plan of a comparison: the terms of its sum from the top level down.
ghost use Rattle.std.specs.Prelude.{◌≡◌, ◌+◌, ◌^◌, ◌<◌, ◌≤◌, ℕ, ℤ, ◌+ℤ◌, unsigned_abs, length, IfOk};
ghost use Rattle.std.specs.List.{All};
ghost use Rattle.dd_count.specs.Members.{AreMembers};
ghost use Rattle.uvl_sums.specs.Sums.{compares, size_of, variables_of, IsSum};
ghost use Rattle.uvl_sums.specs.Steps.{least_total, greatest_total, terms_from, terms_of, terms_on, meets};
ghost use Rattle.uvl_sums.specs.Steps.{HaveBounds, ArePlaced, ArePlanned, AreSorted, IsPlanOf};

use crate::linear::{Cmp3, Linear};
use dd_apply::Kernel;
use dd_store::{OutOfMemory, Var};
use std::alloc::Global;

/// A term of a sum, with what the terms from it on add at least and at most.
#[derive(Clone, Copy)]
pub(crate) struct Step {
    pub var: Var,
    pub weight: i128,
    pub least: i128,
    pub greatest: i128,
}

/// Whether a start and the terms come to 0, or to 0 at most. A sum is below 0 where one more is 0 at most.
#[derive(Drop)]
pub(crate) struct Plan {
    pub exact: bool,
    pub start: i128,
    /// From the top level down.
    pub steps: Vec<Step>,
}

impl Plan {
    /// The plan of a comparison over the order of the variables that there is.
    pub(crate) fn new(
        kernel: &Kernel,
        alloc: Global,
        sum: &Linear,
        how: Cmp3,
    ) -> Result<Plan, OutOfMemory>
        requires { IsSum kernel.now sum.now.terms.items sum.now.constant }
        ensures { IfOk result (IsPlanOf kernel.now.order how sum.now.terms.items sum.now.constant) }
    {
        let placed = placed_terms(kernel, alloc, &sum.terms)?;
        let steps = steps_of(kernel, alloc, &placed)?;
        let (exact, start) = start_of(how, sum.constant);
        Ok(Plan {
            exact,
            start,
            steps,
        })
    }

    /// What the terms from this place on add at least and at most.
    pub(crate) fn reach(&self, at: usize) -> (i128, i128)
        requires { HaveBounds self.now.steps.items }
        ensures least { result.0 ≡ least_total (terms_from self.now.steps.items at) }
        ensures greatest { result.1 ≡ greatest_total (terms_from self.now.steps.items at) }
    {
        match self.steps.get(at) {
            Some(step) => (step.least, step.greatest),
            None => (0, 0),
        }
    }
}

/// Whether the sum has to be 0, and where it starts.
fn start_of(how: Cmp3, constant: i128) -> (bool, i128)
    requires { unsigned_abs constant < 2 ^ 126 }
    ensures small { unsigned_abs result.1 ≤ unsigned_abs constant + 1 }
    ensures same { (t : ℤ) → meets result.0 (result.1 +ℤ t) ≡ compares how (constant +ℤ t) }
{
    match how {
        Cmp3::Equal => (true, constant),
        Cmp3::AtMost => (false, constant),
        Cmp3::Less => (false, constant + 1),
    }
}

/// The levels of the variables with their weights, from the top level down.
fn placed_terms(
    kernel: &Kernel,
    alloc: Global,
    terms: &[(Var, i128)],
) -> Result<Vec<(u32, i128)>, OutOfMemory>
    requires variables { AreMembers kernel.now (variables_of terms.now) }
    requires size { size_of terms.now < 2 ^ 126 }
    ensures { IfOk result (λ placed. ArePlaced kernel.now.order terms.now placed.items) }
{
    // The table is sound also where nothing is done.
    let _order = kernel.order();
    let mut placed = Vec::with_capacity(alloc, terms.len())?;
    for term in terms {
        placed.push((kernel.level(term.0), term.1))?;
    }
    placed.sort_by_key(|placed: &(u32, i128)| placed.0)?;
    Ok(placed)
}

/// The steps, made from the last one up.
fn steps_of(
    kernel: &Kernel,
    alloc: Global,
    placed: &[(u32, i128)],
) -> Result<Vec<Step>, OutOfMemory>
    requires within { All (λ (p : ℕ × ℤ). p.0 < length kernel.now.order) placed.now }
    requires sorted { AreSorted kernel.now.order (terms_on kernel.now.order placed.now) }
    ensures terms { IfOk result (λ steps. terms_of steps.items ≡ terms_on kernel.now.order placed.now) }
    ensures planned { IfOk result (λ steps. ArePlanned kernel.now.order steps.items) }
{
    let mut steps = Vec::with_capacity(alloc, placed.len())?;
    let mut least = 0;
    let mut greatest = 0;
    let mut left = placed.len();
    while left > 0 {
        left -= 1;
        let (level, weight) = placed[left];
        least += weight.min(0);
        greatest += weight.max(0);
        steps.push(Step {
            var: kernel.order()[level as usize],
            weight,
            least,
            greatest,
        })?;
    }
    steps.reverse();
    Ok(steps)
}
