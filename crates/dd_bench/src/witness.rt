//! A node that nobody holds, which tells whether a table has been collected.
ghost use Rattle.std.specs.Prelude.{ℕ, ◌≤◌};
ghost use Rattle.dd_store.specs.Table.{handles_on};

use crate::literal::literal;
use dd_apply::Kernel;
use dd_store::{NodeNo, Row, Var};
use std::alloc::Global;

/// Whether the node that is yes where the last variable is has gone since it was last asked for. It is made anew
/// then, and nobody holds it, so the next collection frees it.
pub(crate) fn has_collected(kernel: &mut Kernel, alloc: Global) -> bool
    ensures kept { (n : ℕ) → handles_on kernel.old n ≤ handles_on kernel.new n }
{
    let variables = kernel.variables();
    if variables == 0 {
        return false;
    }
    let last = variables - 1;
    let row = Row {
        var: Var(last),
        low: NodeNo::NO,
        high: NodeNo::YES,
    };
    if kernel.find(row).is_some() {
        return false;
    }
    match literal(kernel, alloc, last, true) {
        Ok(witness) => {
            kernel.release(witness);
            true
        }
        Err(_) => true,
    }
}
