//! The variables on which a value depends.
ghost use Rattle.std.specs.Prelude.{◌≡◌, ◌↔◌, ℕ, ◌<◌, true, Bool, List, filter, length, IfOk, OnOk};
ghost use Rattle.std.specs.List.{All, Contains};
ghost use Rattle.dd_store.specs.Exhausted.{value_at};
ghost use Rattle.dd_store.specs.Follow.{IsThere};
ghost use Rattle.dd_store.specs.Table.{IsLive, IsVariable, row_of};
ghost use Rattle.dd_store.specs.declared.row.Var.{Var as OneVar};
ghost use Rattle.dd_quant.specs.Support.{support_of, DependsOn};
ghost use Rattle.dd_quant.specs.steps.Seen.{is_seen, IsCovered, AreCovered, SeesMore};

use crate::ends::ends_of;
use crate::marks::Marks;
use dd_apply::Kernel;
use dd_store::{Handle, NodeNo, OutOfMemory, Var};
use std::alloc::Global;

/// The variables on which the value depends, in the order of the table. It makes no node.
pub fn support(kernel: &Kernel, alloc: Global, f: &Handle) -> Result<Vec<Var>, OutOfMemory>
    requires { IsLive kernel.now f.now }
    ensures variables { IfOk result (λ vars. vars.items ≡ support_of kernel.now.order (value_at kernel.now f.now)) }
    ensures exact { IfOk result (λ vars. (v : OneVar) → IsVariable kernel.now v.0 →
        Contains vars.items v ↔ DependsOn v.0 (value_at kernel.now f.now)) }
{
    let _order = kernel.order();
    let mut seen = Vec::new(alloc);
    seen.resize(kernel.variables() as usize, false)?;
    let mut marks = Marks::new(alloc);
    marks.begin();
    let node = kernel.node_of(f);
    see(kernel, &mut marks, &mut seen, node)?;
    seen_variables(alloc, kernel.order(), &seen)
}

/// Sees the variables that a node and those below it test. It goes down the levels, so it is never deeper in itself than
/// those are many.
fn see(
    kernel: &Kernel,
    marks: &mut Marks,
    seen: &mut [bool],
    node: NodeNo,
) -> Result<(), OutOfMemory>
    requires there { IsThere (row_of kernel.now) node.0 }
    requires each { length seen.old ≡ length kernel.now.order }
    requires covered { AreCovered kernel.now seen.old marks.old }
    ensures covered { OnOk result (AreCovered kernel.now seen.new marks.new) }
    ensures here { OnOk result (IsCovered kernel.now seen.new node.0) }
    ensures more { OnOk result (SeesMore kernel.now node.0 seen.old seen.new) }
{
    let _order = kernel.order();
    let Some(ends) = ends_of(kernel, node) else {
        return Ok(());
    };
    if marks.found(node).is_some() {
        return Ok(());
    }
    see(kernel, marks, seen, ends.low)?;
    see(kernel, marks, seen, ends.high)?;
    seen[ends.var.0 as usize] = true;
    marks.keep(node, true)?;
    Ok(())
}

/// The variables that are seen, in their order.
fn seen_variables(alloc: Global, order: &[Var], seen: &[bool]) -> Result<Vec<Var>, OutOfMemory>
    requires { All (λ v. v.0 < length seen.now) order.now }
    ensures { IfOk result (λ vars. vars.items ≡ filter (λ v. is_seen seen.now v.0) order.now) }
{
    let mut vars = Vec::new(alloc);
    for var in order {
        if seen[var.0 as usize] {
            vars.push(*var)?;
        }
    }
    Ok(vars)
}
