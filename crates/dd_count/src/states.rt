//! The states of a count, which are made for one member after the other.
ghost use Rattle.std.specs.Prelude.{◌≡◌, ◌≢◌, ℕ, ◌+◌, ◌-◌, ◌^◌, ◌<◌, ◌≤◌, [], length, take, slice_index, IfOk, OnOk, IfErr, OnErr};
ghost use Rattle.dd_store.specs.Changes.{Grows, Keeps};
ghost use Rattle.dd_store.specs.Exhausted.{value_at};
ghost use Rattle.dd_store.specs.Handles.{KeepsHandles};
ghost use Rattle.dd_store.specs.Table.{IsVariable, IsAbove, node_count};
ghost use Rattle.dd_apply.specs.Held.{IsCauseWithin};
ghost use Rattle.dd_apply.specs.Split.{fork};
ghost use Rattle.dd_count.specs.States.{AreStates, AreHeld, AreBelow, AreForked, HoldsStates, GoesOn, IsCauseOver};

use dd_apply::Kernel;
use dd_store::{Handle, OutOfMemory, Refusal, Var};
use std::alloc::Global;

/// The states 0 to `last` behind the last member: whether each of these numbers is within the bounds.
pub(crate) fn last_states(
    kernel: &mut Kernel,
    alloc: Global,
    last: usize,
    low: u32,
    high: u32,
) -> Result<Vec<Handle>, OutOfMemory>
    requires few { last < 2 ^ 32 }
    ensures states { IfOk result (λ states. AreStates kernel.new [] low high states.items) }
    ensures number { IfOk result (λ states. length states.items ≡ last + 1) }
    ensures held { IfOk result (λ states. HoldsStates kernel.old kernel.new states.items) }
    ensures refused { OnErr result (KeepsHandles kernel.old kernel.new) }
    ensures keeps { Keeps kernel.old kernel.new }
    ensures nodes { node_count kernel.new ≤ node_count kernel.old }
{
    // The table is sound also where nothing is done.
    let _order = kernel.order();
    let mut states = Vec::with_capacity(alloc, last + 1)?;
    match fill(kernel, last, low, high, &mut states) {
        Ok(()) => Ok(states),
        Err(error) => {
            kernel.release_all(states);
            Err(error)
        }
    }
}

/// Fills in the states 0 to `last`. Those that are there at a refusal are the caller's to give back.
fn fill(
    kernel: &mut Kernel,
    last: usize,
    low: u32,
    high: u32,
    states: &mut Vec<Handle>,
) -> Result<(), OutOfMemory>
    requires few { last < 2 ^ 32 }
    requires empty { states.old.items ≡ [] }
    ensures states { OnOk result (AreStates kernel.new [] low high states.new.items) }
    ensures number { OnOk result (length states.new.items ≡ last + 1) }
    ensures held { HoldsStates kernel.old kernel.new states.new.items }
    ensures nodes { node_count kernel.new ≤ node_count kernel.old }
{
    // The table is sound also where nothing is done.
    let _order = kernel.order();
    for before in 0..last + 1 {
        states.reserve(1)?;
        let state = kernel.constant(is_within(low as usize, high as usize, before))?;
        push_within_capacity(states, state);
    }
    Ok(())
}

ghost use Rattle.std.specs.Prelude.{◌∷◌, ◌++◌, vec_len, vec_capacity};
ghost use Rattle.dd_count.specs.Cardinality.{is_within as is_within_spec};

/// Whether a number is within both bounds.
fn is_within(low: usize, high: usize, number: usize) -> bool
    ensures { result ≡ is_within_spec low high number }
{
    low <= number && number <= high
}

/// Puts a handle last in a vector that has room for it.
fn push_within_capacity(handles: &mut Vec<Handle>, handle: Handle)
    requires { vec_len handles.old < vec_capacity handles.old }
    ensures { handles.new.items ≡ handles.old.items ++ handle ∷ [] }
{
    let _room = handles.push(handle);
}

/// Takes one more member into the states, except the last one, for which it makes no difference or which no number of
/// members above reaches any more.
pub(crate) fn count_member(
    kernel: &mut Kernel,
    alloc: Global,
    member: Var,
    states: &mut [Handle],
) -> Result<(), Refusal>
    requires variable { IsVariable kernel.old member.0 }
    requires some { 0 < length states.old }
    requires held { AreHeld kernel.old states.old }
    requires below { AreBelow kernel.old member.0 states.old }
    ensures forked { OnOk result (AreForked kernel.old kernel.new member.0 states.old states.new) }
    ensures goes_on { GoesOn kernel.old states.old kernel.new states.new }
    ensures nodes { node_count kernel.new + 1 ≤ node_count kernel.old + length states.old }
    ensures cause { IfErr result (IsCauseOver kernel.old member.0 states.old kernel.new) }
{
    // The table is sound also where nothing is done.
    let _order = kernel.order();
    for before in 0..states.len() - 1 {
        fork_state(kernel, alloc, member, states, before)?;
    }
    Ok(())
}

/// Makes a state the fork of itself, where the member is false, and of the next state, where it is true.
fn fork_state(
    kernel: &mut Kernel,
    alloc: Global,
    member: Var,
    states: &mut [Handle],
    before: usize,
) -> Result<(), Refusal>
    requires within { before + 1 < length states.old }
    requires variable { IsVariable kernel.old member.0 }
    requires held { AreHeld kernel.old states.old }
    requires above_low { IsAbove kernel.old member.0 (slice_index states.old before) }
    requires above_high { IsAbove kernel.old member.0 (slice_index states.old (before + 1)) }
    ensures value { OnOk result (value_at kernel.new (slice_index states.new before)
        ≡ fork member.0 (value_at kernel.old (slice_index states.old before))
        (value_at kernel.old (slice_index states.old (before + 1)))) }
    ensures others { (c : ℕ) → c ≢ before → slice_index states.new c ≡ slice_index states.old c }
    ensures held { AreHeld kernel.new states.new }
    ensures keeps { Keeps kernel.old kernel.new }
    ensures goes_on { GoesOn kernel.old states.old kernel.new states.new }
    ensures refused { OnErr result (states.new ≡ states.old) }
    ensures nodes { node_count kernel.new ≤ node_count kernel.old + 1 }
    ensures cause { IfErr result (IsCauseWithin kernel.old kernel.new
        (fork member.0 (value_at kernel.old (slice_index states.old before))
        (value_at kernel.old (slice_index states.old (before + 1)))) 0) }
{
    let forked = kernel.node(alloc, member, &states[before], &states[before + 1])?;
    let unforked = std::mem::replace(&mut states[before], forked);
    kernel.release(unforked);
    Ok(())
}

/// Gives the last state back.
pub(crate) fn release_last(kernel: &mut Kernel, states: &mut Vec<Handle>)
    requires some { 0 < length states.old.items }
    requires held { AreHeld kernel.old states.old.items }
    ensures states { states.new.items ≡ take (length states.old.items - 1) states.old.items }
    ensures goes_on { GoesOn kernel.old states.old.items kernel.new states.new.items }
    ensures grows { Grows kernel.old kernel.new 0 }
{
    if let Some(last) = states.pop() {
        kernel.release(last);
    }
}
