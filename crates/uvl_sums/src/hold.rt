//! Partial results as handles, which are all held up to the end.
ghost use Rattle.std.specs.Prelude.{◌≡◌, ℕ, Bool, ◌<◌, [], ◌∷◌, ◌++◌, length, slice_index, vec_len, vec_capacity, IfOk, IfErr};
ghost use Rattle.dd_store.specs.Exhausted.{value_at};
ghost use Rattle.dd_store.specs.Table.{IsVariable, IsAbove};
ghost use Rattle.dd_apply.specs.Held.{IsCauseWithin};
ghost use Rattle.dd_apply.specs.Split.{fork};
ghost use Rattle.dd_count.specs.States.{AreHeld};
ghost use Rattle.uvl_sums.specs.Parts.{Adds, HasValueAt};

use dd_apply::Kernel;
use dd_store::{Handle, OutOfMemory, Refusal, Var};
use std::alloc::Global;

/// Holds a constant, and answers its place.
pub(crate) fn hold_constant(
    kernel: &mut Kernel,
    value: bool,
    held: &mut Vec<Handle>,
) -> Result<usize, OutOfMemory>
    ensures value { IfOk result (λ place. HasValueAt kernel.new held.new.items place (λ (a : ℕ → Bool). value)) }
    ensures adds { Adds kernel.old held.old.items kernel.new held.new.items (λ (a : ℕ → Bool). value) 2 }
{
    // The table is sound also where nothing is done.
    let _order = kernel.order();
    held.reserve(1)?;
    let handle = kernel.constant(value)?;
    let place = held.len();
    push_within_capacity(held, handle);
    Ok(place)
}

/// Holds what is `low` where the variable is false, and else `high`, and answers its place.
pub(crate) fn hold_fork(
    kernel: &mut Kernel,
    alloc: Global,
    var: Var,
    low: usize,
    high: usize,
    held: &mut Vec<Handle>,
) -> Result<usize, Refusal>
    requires variable { IsVariable kernel.old var.0 }
    requires low_there { low < length held.old.items }
    requires high_there { high < length held.old.items }
    requires held { AreHeld kernel.old held.old.items }
    requires above_low { IsAbove kernel.old var.0 (slice_index held.old.items low) }
    requires above_high { IsAbove kernel.old var.0 (slice_index held.old.items high) }
    ensures value { IfOk result (λ place. HasValueAt kernel.new held.new.items place (fork var.0
        (value_at kernel.old (slice_index held.old.items low)) (value_at kernel.old (slice_index held.old.items high)))) }
    ensures adds { Adds kernel.old held.old.items kernel.new held.new.items (fork var.0
        (value_at kernel.old (slice_index held.old.items low)) (value_at kernel.old (slice_index held.old.items high))) 2 }
    ensures cause { IfErr result (IsCauseWithin kernel.old kernel.new (fork var.0
        (value_at kernel.old (slice_index held.old.items low)) (value_at kernel.old (slice_index held.old.items high))) 0) }
{
    // The table is sound also where nothing is done.
    let _order = kernel.order();
    held.reserve(1)?;
    let handle = kernel.node(alloc, var, &held[low], &held[high])?;
    let place = held.len();
    push_within_capacity(held, handle);
    Ok(place)
}

/// Puts a handle last in a vector that has room for it.
fn push_within_capacity(handles: &mut Vec<Handle>, handle: Handle)
    requires { vec_len handles.old < vec_capacity handles.old }
    ensures { handles.new.items ≡ handles.old.items ++ handle ∷ [] }
{
    let _room = handles.push(handle);
}
