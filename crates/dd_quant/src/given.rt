//! Values that are given for variables, and what they leave of a node's ends.
ghost use Rattle.std.specs.Prelude.{◌≡◌, ◌≢◌, ◌⊎◌, ◌↔◌, ◌<◌, not, Some, length, IsTrue, IfOk, MatchOption, IfNone, IfSome};
ghost use Rattle.std.specs.List.{All};
ghost use Rattle.dd_store.specs.Follow.{IsThere};
ghost use Rattle.dd_store.specs.Table.{row_of};
ghost use Rattle.dd_quant.specs.steps.Given.{AreGiven, IsContradictory};
ghost use Rattle.dd_quant.specs.steps.Walk.{HasOpenEnds};

use crate::ends::Ends;
use crate::literal::Literal;
use dd_apply::Kernel;
use dd_store::{NodeNo, OutOfMemory};
use std::alloc::Global;

/// The values that the literals give to so many variables, by the variables' numbers; none where two of the literals
/// contradict one another.
pub(crate) fn given_values(
    alloc: Global,
    variables: u32,
    given: &[Literal],
) -> Result<Option<Vec<Option<bool>>>, OutOfMemory>
    requires { All (λ l. l.var.0 < variables) given.now }
    ensures { IfOk result (λ values. MatchOption values (IsContradictory given.now)
        (λ vs. AreGiven variables given.now vs.items)) }
{
    let mut values = Vec::new(alloc);
    values.resize(variables as usize, None)?;
    for literal in given {
        let at = literal.var.0 as usize;
        if contradicts(values[at], literal.value) {
            return Ok(None);
        }
        values[at] = Some(literal.value);
    }
    Ok(Some(values))
}

/// Whether the other value is given.
fn contradicts(given: Option<bool>, value: bool) -> bool
    ensures { IsTrue result ↔ (given ≡ Some (not value)) }
{
    given == Some(!value)
}

/// The ends of a node; none for a constant. In place of an end for a value that can't be, as the other one is given,
/// stands the constant no.
pub(crate) fn open_ends(kernel: &Kernel, values: &[Option<bool>], node: NodeNo) -> Option<Ends>
    requires there { IsThere (row_of kernel.now) node.0 }
    requires each { length values.now ≡ length kernel.now.order }
    ensures constants { IfNone result (node.0 < 2) }
    ensures ends { IfSome result (λ e. HasOpenEnds kernel.now values.now node.0 e.var.0 e.low.0 e.high.0) }
{
    let _order = kernel.order();
    let (var, low, high) = kernel.ends(node)?;
    let given = values[var.0 as usize];
    Some(Ends {
        var,
        low: open_end(given, false, low),
        high: open_end(given, true, high),
    })
}

/// The end for a value, and the constant no where the other value is given.
fn open_end(given: Option<bool>, value: bool, end: NodeNo) -> NodeNo
    ensures { ((given ≡ Some (not value)) × (result.0 ≡ 0)) ⊎ ((given ≢ Some (not value)) × (result ≡ end)) }
{
    if given == Some(!value) {
        NodeNo::NO
    } else {
        end
    }
}
