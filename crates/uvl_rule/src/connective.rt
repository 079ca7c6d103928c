//! The operators of rules on handles, which they take.
ghost use Rattle.std.specs.Prelude.{◌≡◌, [], ◌∷◌, IfOk, IfErr, OnErr};
ghost use Rattle.dd_apply.specs.Held.{HasBoth, LosesBoth, Trades};
ghost use Rattle.uvl_functions.specs.RuleParts.{opposite};
ghost use Rattle.dd_store.specs.Changes.{Keeps};
ghost use Rattle.dd_store.specs.Exhausted.{value_at};
ghost use Rattle.dd_store.specs.Handles.{GainsHandle, KeepsHandles, LosesHandle};
ghost use Rattle.dd_store.specs.Table.{IsLive};
ghost use Rattle.uvl_functions.specs.Cause.{IsShortFor};
ghost use Rattle.uvl_rule.specs.Connectives.{connection, connection_group};
ghost use Rattle.uvl_functions.specs.RuleParts.{group_of};
ghost use Rattle.uvl_functions.specs.Trade.{Replaces};

use dd_apply::Kernel;
use dd_store::{Handle, Refusal};
use std::alloc::Global;

/// An operator of two operands.
#[derive(Clone, Copy, Debug, PartialEq, Eq)]
pub(crate) enum Connective {
    /// `&`
    And,
    /// `|`
    Or,
    /// `=>`
    Implies,
    /// `<=>`
    Iff,
}

/// The opposite of a handle, in its place.
pub(crate) fn negate(kernel: &mut Kernel, alloc: Global, operand: Handle) -> Result<Handle, Refusal>
    requires { IsLive kernel.old operand }
    ensures value { IfOk result (λ h. value_at kernel.new h ≡ opposite (value_at kernel.old operand)) }
    ensures replaced { IfOk result (Replaces kernel.old kernel.new operand) }
    ensures lost { OnErr result (LosesHandle kernel.old kernel.new operand) }
    ensures keeps { Keeps kernel.old kernel.new }
    ensures cause { IfErr result (IsShortFor kernel.old
        (group_of (opposite (value_at kernel.old operand)) (value_at kernel.old operand ∷ []) [] ∷ [])) }
{
    let made = kernel.not(alloc, &operand);
    kernel.release(operand);
    made
}

/// What a connective makes of two handles, in their place.
pub(crate) fn connect(
    kernel: &mut Kernel,
    alloc: Global,
    connective: Connective,
    left: Handle,
    right: Handle,
) -> Result<Handle, Refusal>
    requires { HasBoth kernel.old left right }
    ensures value { IfOk result (λ h.
        value_at kernel.new h ≡ connection connective (value_at kernel.old left) (value_at kernel.old right)) }
    ensures traded { IfOk result (Trades kernel.old kernel.new left right) }
    ensures lost { OnErr result (LosesBoth kernel.old kernel.new left right) }
    ensures keeps { Keeps kernel.old kernel.new }
    ensures cause { IfErr result (IsShortFor kernel.old
        (connection_group connective (value_at kernel.old left) (value_at kernel.old right) ∷ [])) }
{
    let made = operate(kernel, alloc, connective, &left, &right);
    kernel.release(left);
    kernel.release(right);
    made
}

/// What a connective makes of two handles.
fn operate(
    kernel: &mut Kernel,
    alloc: Global,
    connective: Connective,
    left: &Handle,
    right: &Handle,
) -> Result<Handle, Refusal>
    requires left_live { IsLive kernel.old left.now }
    requires right_live { IsLive kernel.old right.now }
    ensures value { IfOk result (λ h. value_at kernel.new h
        ≡ connection connective (value_at kernel.old left.now) (value_at kernel.old right.now)) }
    ensures gained { IfOk result (GainsHandle kernel.old kernel.new) }
    ensures refused { OnErr result (KeepsHandles kernel.old kernel.new) }
    ensures keeps { Keeps kernel.old kernel.new }
    ensures cause { IfErr result (IsShortFor kernel.old
        (connection_group connective (value_at kernel.old left.now) (value_at kernel.old right.now) ∷ [])) }
{
    match connective {
        Connective::And => kernel.and(alloc, left, right),
        Connective::Or => kernel.or(alloc, left, right),
        Connective::Implies => imply(kernel, alloc, left, right),
        Connective::Iff => equate(kernel, alloc, left, right),
    }
}

/// Whether the right one is true where the left one is: one choice, with the constant yes elsewhere.
fn imply(
    kernel: &mut Kernel,
    alloc: Global,
    left: &Handle,
    right: &Handle,
) -> Result<Handle, Refusal>
    requires left_live { IsLive kernel.old left.now }
    requires right_live { IsLive kernel.old right.now }
    ensures value { IfOk result (λ h. value_at kernel.new h
        ≡ connection Connective.Implies (value_at kernel.old left.now) (value_at kernel.old right.now)) }
    ensures gained { IfOk result (GainsHandle kernel.old kernel.new) }
    ensures refused { OnErr result (KeepsHandles kernel.old kernel.new) }
    ensures keeps { Keeps kernel.old kernel.new }
    ensures cause { IfErr result (IsShortFor kernel.old
        (connection_group Connective.Implies (value_at kernel.old left.now) (value_at kernel.old right.now) ∷ [])) }
{
    let yes = kernel.constant(true)?;
    let made = kernel.ite(alloc, left, right, &yes);
    kernel.release(yes);
    made
}

/// Whether both have one truth: one choice between the right one and its opposite.
fn equate(
    kernel: &mut Kernel,
    alloc: Global,
    left: &Handle,
    right: &Handle,
) -> Result<Handle, Refusal>
    requires left_live { IsLive kernel.old left.now }
    requires right_live { IsLive kernel.old right.now }
    ensures value { IfOk result (λ h. value_at kernel.new h
        ≡ connection Connective.Iff (value_at kernel.old left.now) (value_at kernel.old right.now)) }
    ensures gained { IfOk result (GainsHandle kernel.old kernel.new) }
    ensures refused { OnErr result (KeepsHandles kernel.old kernel.new) }
    ensures keeps { Keeps kernel.old kernel.new }
    ensures cause { IfErr result (IsShortFor kernel.old
        (connection_group Connective.Iff (value_at kernel.old left.now) (value_at kernel.old right.now) ∷ [])) }
{
    let opposite = kernel.not(alloc, right)?;
    let made = kernel.ite(alloc, left, right, &opposite);
    kernel.release(opposite);
    made
}
