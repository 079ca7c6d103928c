//! The diagram of one variable.
ghost use Rattle.std.specs.Prelude.{◌≡◌, ℕ, Bool, [], ◌∷◌, IfOk, IfErr, OnErr};
ghost use Rattle.dd_store.specs.Changes.{Keeps};
ghost use Rattle.dd_store.specs.Handles.{KeepsHandles, GainsHandle};
ghost use Rattle.dd_store.specs.Table.{IsVariable, value_of};
ghost use Rattle.uvl_functions.specs.Cause.{IsShortFor};

use dd_apply::Kernel;
use dd_store::{Handle, Refusal, Var};
use std::alloc::Global;

/// A handle whose value is that of a variable. It is refused only where what is held and the literals of all variables
/// are too much for the budget.
pub fn literal(kernel: &mut Kernel, alloc: Global, var: Var) -> Result<Handle, Refusal>
    requires { IsVariable kernel.old var.0 }
    ensures value { IfOk result (λ h. (a : ℕ → Bool) → value_of kernel.new h a ≡ a var.0) }
    ensures gained { IfOk result (GainsHandle kernel.old kernel.new) }
    ensures refused { OnErr result (KeepsHandles kernel.old kernel.new) }
    ensures keeps { Keeps kernel.old kernel.new }
    ensures cause { IfErr result (IsShortFor kernel.old ([] ∷ [])) }
{
    let no = kernel.constant(false)?;
    match kernel.constant(true) {
        Ok(yes) => {
            let made = kernel.node(alloc, var, &no, &yes);
            kernel.release(yes);
            kernel.release(no);
            made
        }
        Err(failed) => {
            kernel.release(no);
            Err(Refusal::from(failed))
        }
    }
}
