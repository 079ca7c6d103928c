//! Group cardinalities, counted by nodes alone from the last member up.
ghost use Rattle.std.specs.Prelude.{◌≡◌, ℕ, ◌+◌, ◌*◌, ◌<◌, ◌≤◌, Bool, length, min, IfOk, IfErr, OnErr};
ghost use Rattle.std.specs.List.{All};
ghost use Rattle.dd_store.specs.Changes.{Keeps};
ghost use Rattle.dd_store.specs.Exhausted.{value_at};
ghost use Rattle.dd_store.specs.Handles.{KeepsHandles, GainsHandle};
ghost use Rattle.dd_store.specs.Table.{value_of, node_count};
ghost use Rattle.dd_apply.specs.Cause.{IsCause};
ghost use Rattle.dd_count.specs.Cardinality.{cardinality};
ghost use Rattle.dd_count.specs.Levels.{IsFallingFrom, variables_on};
ghost use Rattle.dd_count.specs.Members.{AreMembers};
ghost use Rattle.dd_count.specs.States.{last_state as last_state_of};

use crate::levels::levels_of;
use crate::states::{count_member, last_states, release_last};
use dd_apply::Kernel;
use dd_store::{Handle, Refusal, Var};
use std::alloc::Global;

/// A handle whose value is true where at least `low` and at most `high` of the members are true.
///
/// It is made by `node` alone, from the last member in the order up: a state stands for each number of true members
/// above. Members of which more than `high` are true are one state, and where `high` is no bound, so are those of
/// which `low` are. So for k members it asks for at most k * (high + 1) nodes, and each state is the value with the
/// first variables of the order fixed.
pub fn count(
    kernel: &mut Kernel,
    alloc: Global,
    members: &[Var],
    low: u32,
    high: u32,
) -> Result<Handle, Refusal>
    requires { AreMembers kernel.old members.now }
    ensures value { IfOk result (λ h. (a : ℕ → Bool) → value_of kernel.new h a ≡ cardinality members.now low high a) }
    ensures gained { IfOk result (GainsHandle kernel.old kernel.new) }
    ensures refused { OnErr result (KeepsHandles kernel.old kernel.new) }
    ensures keeps { Keeps kernel.old kernel.new }
    ensures nodes { node_count kernel.new ≤ node_count kernel.old + length members.now * (high + 1) }
    ensures cause { IfErr result (IsCause kernel.old kernel.new (cardinality members.now low high)) }
{
    // The table is sound also where nothing is done.
    let _order = kernel.order();
    let levels = levels_of(kernel, alloc, members)?;
    count_levels(kernel, alloc, &levels, low, high)
}

/// The same for the variables on these levels.
fn count_levels(
    kernel: &mut Kernel,
    alloc: Global,
    levels: &[u32],
    low: u32,
    high: u32,
) -> Result<Handle, Refusal>
    requires falling { IsFallingFrom 0 levels.now }
    requires within { All (λ l. l < length kernel.old.order) levels.now }
    ensures value { IfOk result (λ h.
        value_at kernel.new h ≡ cardinality (variables_on kernel.old.order levels.now) low high) }
    ensures gained { IfOk result (GainsHandle kernel.old kernel.new) }
    ensures refused { OnErr result (KeepsHandles kernel.old kernel.new) }
    ensures keeps { Keeps kernel.old kernel.new }
    ensures nodes { node_count kernel.new ≤ node_count kernel.old + length levels.now * (high + 1) }
    ensures cause { IfErr result (IsCause kernel.old kernel.new
        (cardinality (variables_on kernel.old.order levels.now) low high)) }
{
    // The table is sound also where nothing is done.
    let _order = kernel.order();
    let mut left = levels.len();
    let last = left.min(last_state(left, low, high));
    let mut states = last_states(kernel, alloc, last, low, high)?;
    while left > 0 {
        left -= 1;
        let member = kernel.order()[levels[left] as usize];
        if let Err(refusal) = count_member(kernel, alloc, member, &mut states) {
            kernel.release_all(states);
            return Err(refusal);
        }
        if states.len() > left + 1 {
            release_last(kernel, &mut states);
        }
    }
    match states.pop() {
        Some(state) => Ok(state),
        None => unreachable!(),
    }
}

/// The last state of so many members: of more true ones no bound is told apart.
fn last_state(members: usize, low: u32, high: u32) -> usize
    ensures { result ≡ last_state_of members low high }
{
    if (high as usize) < members {
        high as usize + 1
    } else {
        low as usize
    }
}
