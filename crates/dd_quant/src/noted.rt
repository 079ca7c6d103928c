//! What a walk notes of the values that lead to yes.
ghost use Rattle.std.specs.Prelude.{◌≡◌, ◌⊎◌, ◌↔◌, ℕ, ◌+◌, ◌<◌, ◌≤◌, Bool, true, length, max};
ghost use Rattle.dd_store.specs.Follow.{IsThere};
ghost use Rattle.dd_store.specs.Table.{row_of, level_of, top_of, IsVariable};
ghost use Rattle.dd_quant.specs.Offers.{has_value};
ghost use Rattle.dd_quant.specs.steps.Given.{Allows, CanTake};
ghost use Rattle.dd_quant.specs.steps.Noted.{HasNote, IsPassed, NotesEdge};

use crate::literal::Literal;
use crate::offer::Offer;
use dd_apply::Kernel;
use dd_store::{NodeNo, Var};

/// The level of a node, below all variables for a constant.
pub(crate) fn top(kernel: &Kernel, node: NodeNo) -> u32
    requires { IsThere (row_of kernel.now) node.0 }
    ensures { result ≡ top_of kernel.now node.0 }
{
    let _order = kernel.order();
    match kernel.ends(node) {
        Some((var, _, _)) => kernel.level(var),
        None => kernel.variables(),
    }
}

/// Notes an edge that has a literal and leads to an end, where it is one to be noted.
pub(crate) fn note_edge(
    kernel: &Kernel,
    offers: &mut [Offer],
    far: &mut [u32],
    is_noted: bool,
    literal: Literal,
    end: NodeNo,
)
    requires there { IsThere (row_of kernel.now) end.0 }
    requires variable { IsVariable kernel.now literal.var.0 }
    requires number { length offers.old ≡ length kernel.now.order }
    requires levels { length far.old ≡ length kernel.now.order + 1 }
    ensures { NotesEdge is_noted literal.var.0 literal.value (level_of kernel.now literal.var.0)
        (top_of kernel.now end.0) offers.old offers.new far.old far.new }
{
    let _order = kernel.order();
    note_value(offers, is_noted, literal);
    reach(
        far,
        is_noted,
        kernel.level(literal.var) + 1,
        top(kernel, end),
    );
}

/// Notes a value of a variable, where it is one to be noted.
fn note_value(offers: &mut [Offer], is_noted: bool, literal: Literal)
    requires { literal.var.0 < length offers.old }
    ensures noted { (w : ℕ) (c : Bool) → HasNote offers.new w c ↔
        (HasNote offers.old w c ⊎ ((is_noted ≡ true) × (w ≡ literal.var.0) × (c ≡ literal.value))) }
    ensures number { length offers.new ≡ length offers.old }
{
    if !is_noted {
        return;
    }
    let at = literal.var.0 as usize;
    offers[at] = with_value(offers[at], literal.value);
}

/// The offer with one value more.
fn with_value(offer: Offer, value: bool) -> Offer
    ensures { (c : Bool) → (has_value result c ≡ true) ↔ ((has_value offer c ≡ true) ⊎ (c ≡ value)) }
{
    if value {
        Offer {
            no: offer.no,
            yes: true,
        }
    } else {
        Offer {
            no: true,
            yes: offer.yes,
        }
    }
}

/// Notes that an edge that begins right above a level leads to another one, where it is one to be noted.
pub(crate) fn reach(far: &mut [u32], is_noted: bool, from: u32, to: u32)
    requires { from < length far.old }
    ensures passed { (l : ℕ) → IsPassed far.new l ↔
        (IsPassed far.old l ⊎ ((is_noted ≡ true) × (from ≤ l) × (l < to))) }
    ensures number { length far.new ≡ length far.old }
{
    if !is_noted {
        return;
    }
    let at = from as usize;
    far[at] = larger(far[at], to);
}

/// The larger one of two numbers.
fn larger(a: u32, b: u32) -> u32
    ensures { result ≡ max a b }
{
    a.max(b)
}

/// Notes each value that may be of a variable that is passed over.
pub(crate) fn open_passed(
    kernel: &Kernel,
    values: &[Option<bool>],
    offers: &mut [Offer],
    far: &[u32],
)
    requires each { length values.now ≡ length kernel.now.order }
    requires number { length offers.old ≡ length kernel.now.order }
    requires levels { length far.now ≡ length kernel.now.order + 1 }
    ensures { (v : ℕ) (b : Bool) → IsVariable kernel.now v → HasNote offers.new v b ↔
        (HasNote offers.old v b ⊎ (IsPassed far.now (level_of kernel.now v) × Allows values.now v b)) }
{
    let order = kernel.order();
    let mut reached = 0;
    for (level, var) in order.iter().enumerate() {
        reached = larger(far[level], reached);
        open_value(offers, level, reached, *var, values[var.0 as usize]);
    }
}

/// Notes each value that may be of a variable, where an edge from above leads past its level.
fn open_value(offers: &mut [Offer], level: usize, reached: u32, var: Var, given: Option<bool>)
    requires { var.0 < length offers.old }
    ensures noted { (w : ℕ) (c : Bool) → HasNote offers.new w c ↔
        (HasNote offers.old w c ⊎ ((level < reached) × (w ≡ var.0) × CanTake given c)) }
    ensures number { length offers.new ≡ length offers.old }
{
    if reached as usize <= level {
        return;
    }
    let at = var.0 as usize;
    offers[at] = with_open(offers[at], given);
}

/// The offer with each value that may be.
fn with_open(offer: Offer, given: Option<bool>) -> Offer
    ensures { (c : Bool) → (has_value result c ≡ true) ↔ ((has_value offer c ≡ true) ⊎ CanTake given c) }
{
    match given {
        None => Offer {
            no: true,
            yes: true,
        },
        Some(value) => with_value(offer, value),
    }
}
