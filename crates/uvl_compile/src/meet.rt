//! The meet of two diagrams, which takes their place.
ghost use Rattle.std.specs.Prelude.{◌≡◌, [], ◌∷◌, IfOk, IfErr, OnErr};
ghost use Rattle.dd_apply.specs.Held.{HasBoth, LosesBoth, Trades};
ghost use Rattle.dd_store.specs.Changes.{Keeps};
ghost use Rattle.dd_store.specs.Exhausted.{value_at};
ghost use Rattle.uvl_functions.specs.Cause.{IsShortFor};
ghost use Rattle.uvl_compile.specs.Conditions.{both};

use dd_apply::Kernel;
use dd_store::{Handle, Refusal};
use std::alloc::Global;

/// A handle whose value is true where both values are, in the place of both handles.
pub(crate) fn meet(
    kernel: &mut Kernel,
    alloc: Global,
    f: Handle,
    g: Handle,
) -> Result<Handle, Refusal>
    requires { HasBoth kernel.old f g }
    ensures value { IfOk result (λ h.
        value_at kernel.new h ≡ both (value_at kernel.old f) (value_at kernel.old g)) }
    ensures traded { IfOk result (Trades kernel.old kernel.new f g) }
    ensures lost { OnErr result (LosesBoth kernel.old kernel.new f g) }
    ensures keeps { Keeps kernel.old kernel.new }
    ensures cause { IfErr result (IsShortFor kernel.old
        ((both (value_at kernel.old f) (value_at kernel.old g) ∷ []) ∷ [])) }
{
    let made = kernel.and(alloc, &f, &g);
    kernel.release(f);
    kernel.release(g);
    made
}
