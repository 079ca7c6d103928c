//! The diagram of one literal.
ghost use Rattle.std.specs.Prelude.{ℕ, ◌≤◌, IfOk};
ghost use Rattle.dd_store.specs.Handles.{GainsHandle};
ghost use Rattle.dd_store.specs.Table.{handles_on};

use dd_apply::Kernel;
use dd_store::{Handle, Refusal, Var};
use std::alloc::Global;

/// A handle on a variable, or on its opposite. Where there is no such variable, memory is said to be wanting.
pub(crate) fn literal(
    kernel: &mut Kernel,
    alloc: Global,
    variable: u32,
    value: bool,
) -> Result<Handle, Refusal>
    ensures gained { IfOk result (GainsHandle kernel.old kernel.new) }
    ensures kept { (n : ℕ) → handles_on kernel.old n ≤ handles_on kernel.new n }
{
    if variable >= kernel.variables() {
        return Err(Refusal::OutOfMemory);
    }
    let no = kernel.constant(!value)?;
    let yes = kernel.constant(value)?;
    let literal = kernel.node(alloc, Var(variable), &no, &yes)?;
    kernel.release(no);
    kernel.release(yes);
    Ok(literal)
}
