//! Whether something makes a value true.
ghost use Rattle.std.specs.Prelude.{◌≡◌, ◌↔◌, length, IsTrue, IfOk, OnOk};
ghost use Rattle.dd_store.specs.Exhausted.{value_at};
ghost use Rattle.dd_store.specs.Follow.{IsThere};
ghost use Rattle.dd_store.specs.Table.{IsLive, row_of};
ghost use Rattle.dd_quant.specs.Possible.{AreLiterals, IsPossible};
ghost use Rattle.dd_quant.specs.steps.Walk.{CanBe, AreFound};

use crate::given::{given_values, open_ends};
use crate::literal::Literal;
use crate::marks::Marks;
use dd_apply::Kernel;
use dd_store::{Handle, NodeNo, OutOfMemory};
use std::alloc::Global;

/// Whether some assignment that agrees with all the literals makes the value true. It makes no node.
pub fn possible(
    kernel: &Kernel,
    alloc: Global,
    f: &Handle,
    given: &[Literal],
) -> Result<bool, OutOfMemory>
    requires live { IsLive kernel.now f.now }
    requires literals { AreLiterals kernel.now given.now }
    ensures { IfOk result (λ yes. IsTrue yes ↔ IsPossible (value_at kernel.now f.now) given.now) }
{
    let mut marks = Marks::new(alloc);
    possible_with(kernel, alloc, &mut marks, f, given)
}

/// The same by a walk that uses marks again.
pub fn possible_with(
    kernel: &Kernel,
    alloc: Global,
    marks: &mut Marks,
    f: &Handle,
    given: &[Literal],
) -> Result<bool, OutOfMemory>
    requires live { IsLive kernel.now f.now }
    requires literals { AreLiterals kernel.now given.now }
    ensures { IfOk result (λ yes. IsTrue yes ↔ IsPossible (value_at kernel.now f.now) given.now) }
{
    let _order = kernel.order();
    match given_values(alloc, kernel.variables(), given)? {
        None => Ok(false),
        Some(values) => {
            marks.begin();
            let node = kernel.node_of(f);
            can_be(kernel, marks, &values, node)
        }
    }
}

/// Whether some assignment with the values makes a node true. It goes down the levels, so it is never deeper in itself
/// than those are many, and it asks no node twice.
fn can_be(
    kernel: &Kernel,
    marks: &mut Marks,
    values: &[Option<bool>],
    node: NodeNo,
) -> Result<bool, OutOfMemory>
    requires there { IsThere (row_of kernel.now) node.0 }
    requires each { length values.now ≡ length kernel.now.order }
    requires found { AreFound kernel.now values.now marks.old }
    ensures value { IfOk result (λ yes. IsTrue yes ↔ CanBe kernel.now values.now node.0) }
    ensures found { OnOk result (AreFound kernel.now values.now marks.new) }
{
    let _order = kernel.order();
    let Some(ends) = open_ends(kernel, values, node) else {
        return Ok(node == NodeNo::YES);
    };
    if let Some(is_possible) = marks.found(node) {
        return Ok(is_possible);
    }
    if can_be(kernel, marks, values, ends.low)? {
        return marks.keep(node, true);
    }
    let by_high = can_be(kernel, marks, values, ends.high)?;
    marks.keep(node, by_high)
}
