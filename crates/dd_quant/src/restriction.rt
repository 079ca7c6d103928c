//! A value with one variable fixed.
ghost use Rattle.std.specs.Prelude.{◌≡◌, ◌⊎◌, ℕ, ◌+◌, ◌-◌, ◌*◌, ◌<◌, Bool, [], ◌∷◌, length, Some, IfOk, IfErr, OnErr, OnOk, IfSome, IfNone};
ghost use Rattle.dd_store.specs.Changes.{Keeps};
ghost use Rattle.dd_store.specs.Exhausted.{value_at};
ghost use Rattle.dd_store.specs.Follow.{IsThere, with_value};
ghost use Rattle.dd_store.specs.Handles.{KeepsHandles, GainsHandle};
ghost use Rattle.dd_store.specs.Size.{fixed};
ghost use Rattle.dd_store.specs.Table.{IsLive, IsVariable, IsAbove, HasEnds, row_of, level_of, top_of, value_of};
ghost use Rattle.dd_apply.specs.Cause.{IsCause};
ghost use Rattle.dd_apply.specs.Held.{IsHeld, IsCauseWithin, HasBoth, Trades, LosesBoth};
ghost use Rattle.dd_apply.specs.Split.{fork};
ghost use Rattle.dd_quant.specs.Cause.{IsShortFor};
ghost use Rattle.dd_quant.specs.steps.Remembered.{IsAnswer, AreAnswers};

use crate::ends::{Ends, ends_of};
use crate::literal::Literal;
use crate::memo::{forget_unless_room, recall, remember};
use dd_apply::Kernel;
use dd_store::{Handle, NodeNo, Refusal, Row, Var};
use std::alloc::Global;

/// A handle whose value is that of `f` with the variable fixed to `value` (Bryant 1986).
pub fn cofactor(
    kernel: &mut Kernel,
    alloc: Global,
    f: &Handle,
    var: Var,
    value: bool,
) -> Result<Handle, Refusal>
    requires live { IsLive kernel.old f.now }
    requires variable { IsVariable kernel.old var.0 }
    ensures value { IfOk result (λ h. (a : ℕ → Bool) →
        value_of kernel.new h a ≡ value_of kernel.old f.now (with_value a var.0 value)) }
    ensures gained { IfOk result (GainsHandle kernel.old kernel.new) }
    ensures refused { OnErr result (KeepsHandles kernel.old kernel.new) }
    ensures keeps { Keeps kernel.old kernel.new }
    ensures full { IfErr result (IsCause kernel.old kernel.new (fixed (value_at kernel.old f.now) var.0 value)) }
    ensures cause { IfErr result (IsShortFor kernel.old ((fixed (value_at kernel.old f.now) var.0 value ∷ []) ∷ [])) }
{
    let _order = kernel.order();
    let node = kernel.node_of(f);
    let mut answers = Vec::new(alloc);
    restrict(kernel, alloc, &mut answers, Literal { var, value }, node)
}

/// A handle whose value is that of a node where the variable of a literal has the literal's value, by recursion on the
/// ends. It goes down to the level of the variable, and what is remembered of the nodes above is asked first.
fn restrict(
    kernel: &mut Kernel,
    alloc: Global,
    answers: &mut Vec<Option<NodeNo>>,
    literal: Literal,
    node: NodeNo,
) -> Result<Handle, Refusal>
    requires held { IsHeld kernel.old node.0 }
    requires variable { IsVariable kernel.old literal.var.0 }
    requires right { AreAnswers kernel.old literal.var.0 literal.value answers.old.items }
    ensures value { IfOk result (λ h.
        value_at kernel.new h ≡ fixed (value_at kernel.old node.0) literal.var.0 literal.value) }
    ensures gained { IfOk result (GainsHandle kernel.old kernel.new) }
    ensures refused { OnErr result (KeepsHandles kernel.old kernel.new) }
    ensures keeps { Keeps kernel.old kernel.new }
    ensures right { OnOk result (AreAnswers kernel.new literal.var.0 literal.value answers.new.items) }
    ensures cause { IfErr result (IsCauseWithin kernel.old kernel.new
        (fixed (value_at kernel.old node.0) literal.var.0 literal.value)
        (2 * (length kernel.old.order - top_of kernel.old node.0 + 1))) }
{
    let _order = kernel.order();
    let Some(ends) = ends_of(kernel, node) else {
        return Ok(kernel.hold(node)?);
    };
    if let Some(answer) = known(kernel, answers, literal, node, ends) {
        return Ok(kernel.hold(answer)?);
    }
    let low = restrict(kernel, alloc, answers, literal, ends.low)?;
    match restrict(kernel, alloc, answers, literal, ends.high) {
        Ok(high) => join(kernel, alloc, answers, literal, node, ends.var, low, high),
        Err(refusal) => {
            kernel.release(low);
            Err(refusal)
        }
    }
}

/// The node with this value, where that is known without a recursion: the variable is the node's own or stands above it,
/// or the answer is remembered.
fn known(
    kernel: &Kernel,
    answers: &[Option<NodeNo>],
    literal: Literal,
    node: NodeNo,
    ends: Ends,
) -> Option<NodeNo>
    requires there { IsThere (row_of kernel.now) node.0 }
    requires variable { IsVariable kernel.now literal.var.0 }
    requires ends { HasEnds kernel.now node.0 ends.var.0 ends.low.0 ends.high.0 }
    requires right { AreAnswers kernel.now literal.var.0 literal.value answers.now }
    ensures right { IfSome result (λ r. IsAnswer kernel.now literal.var.0 literal.value node.0 r.0) }
    ensures above { IfNone result (level_of kernel.now ends.var.0 < level_of kernel.now literal.var.0) }
{
    let _order = kernel.order();
    let level = kernel.level(literal.var);
    let own = kernel.level(ends.var);
    if level < own {
        return Some(node);
    }
    if level == own {
        return Some(ends.end(literal.value));
    }
    recall(answers, node)
}

/// A handle whose value is that of `high` where the variable is true, and else that of `low`, in place of these two. It
/// is remembered as the answer for a node.
fn join(
    kernel: &mut Kernel,
    alloc: Global,
    answers: &mut Vec<Option<NodeNo>>,
    literal: Literal,
    node: NodeNo,
    var: Var,
    low: Handle,
    high: Handle,
) -> Result<Handle, Refusal>
    requires held { IsHeld kernel.old node.0 }
    requires variable { IsVariable kernel.old var.0 }
    requires both { HasBoth kernel.old low high }
    requires above_low { IsAbove kernel.old var.0 low }
    requires above_high { IsAbove kernel.old var.0 high }
    requires right { AreAnswers kernel.old literal.var.0 literal.value answers.old.items }
    requires asked { fork var.0 (value_at kernel.old low) (value_at kernel.old high)
        ≡ fixed (value_at kernel.old node.0) literal.var.0 literal.value }
    ensures value { IfOk result (λ h.
        value_at kernel.new h ≡ fork var.0 (value_at kernel.old low) (value_at kernel.old high)) }
    ensures traded { IfOk result (Trades kernel.old kernel.new low high) }
    ensures lost { OnErr result (LosesBoth kernel.old kernel.new low high) }
    ensures keeps { Keeps kernel.old kernel.new }
    ensures right { OnOk result (AreAnswers kernel.new literal.var.0 literal.value answers.new.items) }
    ensures cause { IfErr result (IsCauseWithin kernel.old kernel.new
        (fork var.0 (value_at kernel.old low) (value_at kernel.old high)) 0) }
{
    let _order = kernel.order();
    let row = Row {
        var,
        low: kernel.node_of(&low),
        high: kernel.node_of(&high),
    };
    forget_unless_room(kernel, answers, row);
    let made = kernel.node(alloc, var, &low, &high);
    kernel.release(low);
    kernel.release(high);
    remember_made(kernel, answers, node, &made);
    made
}

ghost use Rattle.dd_quant.specs.steps.Remembered.{IsRemembered};

/// Remembers a handle that was made as the answer for a node.
fn remember_made(
    kernel: &Kernel,
    answers: &mut Vec<Option<NodeNo>>,
    node: NodeNo,
    made: &Result<Handle, Refusal>,
)
    requires { IfOk made.now (IsLive kernel.now) }
    ensures { IfOk made.now (IsRemembered answers.old.items answers.new.items node.0) }
{
    if let Ok(handle) = made {
        let answer = kernel.node_of(handle);
        remember(answers, node, answer);
    }
}
