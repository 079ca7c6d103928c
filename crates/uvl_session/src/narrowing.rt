//! The products that agree with one decision more.
ghost use Rattle.std.specs.Prelude.{◌≡◌, [], ◌∷◌, IfOk, IfErr, OnErr};
ghost use Rattle.dd_store.specs.Changes.{Keeps};
ghost use Rattle.dd_store.specs.Exhausted.{value_at};
ghost use Rattle.dd_store.specs.Handles.{GainsHandle, KeepsHandles};
ghost use Rattle.dd_store.specs.Short.{literal};
ghost use Rattle.dd_store.specs.Table.{IsLive, IsVariable};
ghost use Rattle.uvl_functions.specs.Cause.{IsShortFor};
ghost use Rattle.uvl_compile.specs.Conditions.{both};

use dd_apply::Kernel;
use dd_store::{Handle, Refusal, Var};
use std::alloc::Global;

/// A handle whose value is whether the variable has the value.
pub(crate) fn fixed(
    kernel: &mut Kernel,
    alloc: Global,
    var: Var,
    value: bool,
) -> Result<Handle, Refusal>
    requires { IsVariable kernel.old var.0 }
    ensures value { IfOk result (λ h. value_at kernel.new h ≡ literal var.0 value) }
    ensures gained { IfOk result (GainsHandle kernel.old kernel.new) }
    ensures refused { OnErr result (KeepsHandles kernel.old kernel.new) }
    ensures keeps { Keeps kernel.old kernel.new }
    ensures cause { IfErr result (IsShortFor kernel.old ([] ∷ [])) }
{
    let low = kernel.constant(!value)?;
    match kernel.constant(value) {
        Ok(high) => {
            let made = kernel.node(alloc, var, &low, &high);
            kernel.release(high);
            kernel.release(low);
            made
        }
        Err(failed) => {
            kernel.release(low);
            Err(Refusal::from(failed))
        }
    }
}

/// A handle whose value is that of another one where the variable has the value.
pub(crate) fn narrowed(
    kernel: &mut Kernel,
    alloc: Global,
    agreeing: &Handle,
    var: Var,
    value: bool,
) -> Result<Handle, Refusal>
    requires live { IsLive kernel.old agreeing.now }
    requires variable { IsVariable kernel.old var.0 }
    ensures value { IfOk result (λ h.
        value_at kernel.new h ≡ both (value_at kernel.old agreeing.now) (literal var.0 value)) }
    ensures gained { IfOk result (GainsHandle kernel.old kernel.new) }
    ensures refused { OnErr result (KeepsHandles kernel.old kernel.new) }
    ensures keeps { Keeps kernel.old kernel.new }
    ensures cause { IfErr result (IsShortFor kernel.old
        ((both (value_at kernel.old agreeing.now) (literal var.0 value) ∷ []) ∷ [])) }
{
    let one = fixed(kernel, alloc, var, value)?;
    let made = kernel.and(alloc, agreeing, &one);
    kernel.release(one);
    made
}
