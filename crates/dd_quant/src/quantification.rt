//! A value without some of its variables.
ghost use Rattle.std.specs.Prelude.{◌≡◌, ◌↔◌, ℕ, Bool, true, List, [], ◌∷◌, IfOk, IfErr, OnErr};
ghost use Rattle.std.specs.List.{All, Contains};
ghost use Rattle.dd_store.specs.Changes.{Keeps};
ghost use Rattle.dd_store.specs.Exhausted.{value_at};
ghost use Rattle.dd_store.specs.Handles.{KeepsHandles, GainsHandle, LosesHandle};
ghost use Rattle.dd_store.specs.Size.{Function};
ghost use Rattle.dd_store.specs.Table.{IsLive, IsVariable, value_of};
ghost use Rattle.dd_apply.specs.Held.{HasBoth, Trades, LosesBoth};
ghost use Rattle.dd_apply.specs.Truth.{applied};
ghost use Rattle.dd_apply.specs.declared.operation.Operation.TheVariants.{Or};
ghost use Rattle.dd_quant.specs.Cause.{IsShortFor};
ghost use Rattle.dd_quant.specs.Exists.{without, without_group, exists_over, exists_groups, IsTrueFor};
ghost use Rattle.dd_quant.specs.steps.Replaced.{Replaces};

use crate::restriction::cofactor;
use dd_apply::Kernel;
use dd_store::{Handle, Refusal, Var};
use std::alloc::Global;

/// A handle whose value is true where some values of the variables make that of `f` true. The variables go one after the
/// other, in the order of the list.
pub fn exists(
    kernel: &mut Kernel,
    alloc: Global,
    f: &Handle,
    vars: &[Var],
) -> Result<Handle, Refusal>
    requires live { IsLive kernel.old f.now }
    requires variables { All (λ v. IsVariable kernel.old v.0) vars.now }
    ensures value { IfOk result (λ h. (a : ℕ → Bool) →
        value_of kernel.new h a ≡ exists_over vars.now (value_at kernel.old f.now) a) }
    ensures some { IfOk result (λ h. (a : ℕ → Bool) →
        (value_of kernel.new h a ≡ true) ↔ IsTrueFor vars.now (value_at kernel.old f.now) a) }
    ensures gained { IfOk result (GainsHandle kernel.old kernel.new) }
    ensures refused { OnErr result (KeepsHandles kernel.old kernel.new) }
    ensures keeps { Keeps kernel.old kernel.new }
    ensures cause { IfErr result (IsShortFor kernel.old (exists_groups vars.now (value_at kernel.old f.now))) }
{
    let _order = kernel.order();
    let mut so_far = kernel.copy(f)?;
    for var in vars {
        so_far = without_next(kernel, alloc, so_far, *var)?;
    }
    Ok(so_far)
}

/// A handle whose value is true where that of `f` is for one of the values of a variable, in place of `f`.
fn without_next(kernel: &mut Kernel, alloc: Global, f: Handle, var: Var) -> Result<Handle, Refusal>
    requires live { IsLive kernel.old f }
    requires variable { IsVariable kernel.old var.0 }
    ensures value { IfOk result (λ h. value_at kernel.new h ≡ without var.0 (value_at kernel.old f)) }
    ensures replaced { IfOk result (Replaces kernel.old kernel.new f) }
    ensures lost { OnErr result (LosesHandle kernel.old kernel.new f) }
    ensures keeps { Keeps kernel.old kernel.new }
    ensures cause { IfErr result (IsShortFor kernel.old (without_group var.0 (value_at kernel.old f) ∷ [])) }
{
    let _order = kernel.order();
    let made = without_variable(kernel, alloc, &f, var);
    kernel.release(f);
    made
}

/// A handle whose value is true where that of `f` is for one of the values of a variable.
fn without_variable(
    kernel: &mut Kernel,
    alloc: Global,
    f: &Handle,
    var: Var,
) -> Result<Handle, Refusal>
    requires live { IsLive kernel.old f.now }
    requires variable { IsVariable kernel.old var.0 }
    ensures value { IfOk result (λ h. value_at kernel.new h ≡ without var.0 (value_at kernel.old f.now)) }
    ensures gained { IfOk result (GainsHandle kernel.old kernel.new) }
    ensures refused { OnErr result (KeepsHandles kernel.old kernel.new) }
    ensures keeps { Keeps kernel.old kernel.new }
    ensures cause { IfErr result (IsShortFor kernel.old (without_group var.0 (value_at kernel.old f.now) ∷ [])) }
{
    let _order = kernel.order();
    let low = cofactor(kernel, alloc, f, var, false)?;
    match cofactor(kernel, alloc, f, var, true) {
        Ok(high) => either(kernel, alloc, low, high),
        Err(refusal) => {
            kernel.release(low);
            Err(refusal)
        }
    }
}

/// A handle whose value is true where one of two values is, in place of these two.
fn either(kernel: &mut Kernel, alloc: Global, low: Handle, high: Handle) -> Result<Handle, Refusal>
    requires { HasBoth kernel.old low high }
    ensures value { IfOk result (λ h.
        value_at kernel.new h ≡ applied Or (value_at kernel.old low) (value_at kernel.old high)) }
    ensures traded { IfOk result (Trades kernel.old kernel.new low high) }
    ensures lost { OnErr result (LosesBoth kernel.old kernel.new low high) }
    ensures keeps { Keeps kernel.old kernel.new }
    ensures cause { IfErr result (λ refusal. (group : List Function) →
        Contains group (applied Or (value_at kernel.old low) (value_at kernel.old high)) →
        IsShortFor kernel.old (group ∷ []) refusal) }
{
    let _order = kernel.order();
    let made = kernel.or(alloc, &low, &high);
    kernel.release(low);
    kernel.release(high);
    made
}
