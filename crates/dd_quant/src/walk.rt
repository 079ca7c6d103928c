//! One walk over the nodes that notes all values that lead to yes.
ghost use Rattle.std.specs.Prelude.{◌≡◌, ◌↔◌, ℕ, ◌+◌, ◌||◌, Bool, length, IsTrue, IfOk, OnOk};
ghost use Rattle.dd_store.specs.Follow.{IsThere};
ghost use Rattle.dd_store.specs.Table.{row_of, IsLive, IsVariable};
ghost use Rattle.dd_quant.specs.steps.Walk.{CanBe, AreFound};
ghost use Rattle.dd_quant.specs.steps.Noted.{HasNote, IsNotedFrom, AreNoted, NotesMore, CanHave};

use crate::given::open_ends;
use crate::literal::Literal;
use crate::marks::Marks;
use crate::noted::{note_edge, open_passed, reach, top};
use crate::offer::Offer;
use dd_apply::Kernel;
use dd_store::{Handle, NodeNo, OutOfMemory};
use std::alloc::Global;

/// Notes in offers that have no value yet which values the variables have where the value of a handle is true.
///
/// Each node that can be true tests its variable for the values whose ends can be, and each edge to such an end passes
/// over the levels in between, whose variables then have any value that may be. So a walk that comes to each node once
/// notes of an edge the value and, at the level where it begins, how far the farthest one leads; a sweep over the levels
/// then tells which of them are passed over.
pub(crate) fn note_all(
    kernel: &Kernel,
    alloc: Global,
    marks: &mut Marks,
    values: &[Option<bool>],
    f: &Handle,
    offers: &mut [Offer],
) -> Result<(), OutOfMemory>
    requires live { IsLive kernel.now f.now }
    requires each { length values.now ≡ length kernel.now.order }
    requires number { length offers.old ≡ length kernel.now.order }
    requires none { (v : ℕ) (b : Bool) → ¬ HasNote offers.old v b }
    ensures each { OnOk result ((v : ℕ) (b : Bool) → IsVariable kernel.now v →
        HasNote offers.new v b ↔ CanHave kernel.now values.now f.now v b) }
    ensures number { length offers.new ≡ length offers.old }
{
    let _order = kernel.order();
    let mut far = Vec::new(alloc);
    far.resize(kernel.variables() as usize + 1, 0)?;
    marks.begin();
    let node = kernel.node_of(f);
    let is_possible = note_from(kernel, marks, values, offers, &mut far, node)?;
    reach(&mut far, is_possible, 0, top(kernel, node));
    open_passed(kernel, values, offers, &far);
    Ok(())
}

/// Notes the values that lead from a node to yes, and answers whether any do. It goes down the levels, so it is never
/// deeper in itself than those are many.
fn note_from(
    kernel: &Kernel,
    marks: &mut Marks,
    values: &[Option<bool>],
    offers: &mut [Offer],
    far: &mut [u32],
    node: NodeNo,
) -> Result<bool, OutOfMemory>
    requires there { IsThere (row_of kernel.now) node.0 }
    requires each { length values.now ≡ length kernel.now.order }
    requires number { length offers.old ≡ length kernel.now.order }
    requires levels { length far.old ≡ length kernel.now.order + 1 }
    requires found { AreFound kernel.now values.now marks.old }
    requires noted { AreNoted kernel.now values.now marks.old offers.old far.old }
    ensures value { IfOk result (λ yes. IsTrue yes ↔ CanBe kernel.now values.now node.0) }
    ensures found { OnOk result (AreFound kernel.now values.now marks.new) }
    ensures noted { OnOk result (AreNoted kernel.now values.now marks.new offers.new far.new) }
    ensures from { OnOk result (IsNotedFrom kernel.now values.now offers.new far.new node.0) }
    ensures more { OnOk result
        (NotesMore kernel.now values.now node.0 offers.old offers.new far.old far.new) }
{
    let _order = kernel.order();
    let Some(ends) = open_ends(kernel, values, node) else {
        return Ok(node == NodeNo::YES);
    };
    if let Some(is_possible) = marks.found(node) {
        return Ok(is_possible);
    }
    let no = Literal {
        var: ends.var,
        value: false,
    };
    let yes = Literal {
        var: ends.var,
        value: true,
    };
    let by_low = note_from(kernel, marks, values, offers, far, ends.low)?;
    note_edge(kernel, offers, far, by_low, no, ends.low);
    let by_high = note_from(kernel, marks, values, offers, far, ends.high)?;
    note_edge(kernel, offers, far, by_high, yes, ends.high);
    marks.keep(node, is_either(by_low, by_high))
}

/// Whether one of two is true.
fn is_either(a: bool, b: bool) -> bool
    ensures { result ≡ (a || b) }
{
    a || b
}
