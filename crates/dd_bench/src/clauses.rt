//! All clauses over some variables, each with every variable or its opposite: a table of known size, in which each node
//! but those on top is an end of two.
ghost use Rattle.std.specs.Prelude.{ℕ, ◌≤◌, IfOk};
ghost use Rattle.dd_store.specs.Table.{IsLive, handles_on};

use crate::literal::literal;
use dd_apply::Kernel;
use dd_store::{Handle, Refusal};
use std::alloc::Global;

/// A table that holds all clauses over so many variables; for n variables these take 2^(n + 1) - 2 nodes, and the
/// literals of all but the last take 2 more each. Where `compares`, each clause was asked whether it implies each
/// one.
pub(crate) fn table_of_clauses(alloc: Global, variables: u32, compares: bool) -> Option<Kernel> {
    let mut kernel = Kernel::new(alloc, 16_777_216).ok()?;
    for _variable in 0..variables {
        kernel.add_variable(alloc).ok()?;
    }
    let empty = kernel.constant(false).ok()?;
    let compared = if compares { variables } else { 0 };
    make_all(&mut kernel, alloc, &empty, variables, compared).ok()?;
    Some(kernel)
}

/// Makes all clauses that a clause becomes by this many variables in front, and compares each with all clauses over
/// so many variables; with none where these are 0. All stay held, as a handle that is only dropped stays live.
fn make_all(
    kernel: &mut Kernel,
    alloc: Global,
    clause: &Handle,
    left: u32,
    compared: u32,
) -> Result<(), Refusal>
    requires { IsLive kernel.old clause.now }
    ensures kept { (n : ℕ) → handles_on kernel.old n ≤ handles_on kernel.new n }
{
    if left == 0 {
        if compared == 0 {
            return Ok(());
        }
        let empty = kernel.constant(false)?;
        return compare_all(kernel, alloc, clause, &empty, compared);
    }
    let without = longer(kernel, alloc, clause, left - 1, false)?;
    make_all(kernel, alloc, &without, left - 1, compared)?;
    let with = longer(kernel, alloc, clause, left - 1, true)?;
    make_all(kernel, alloc, &with, left - 1, compared)
}

/// Asks of a clause whether it implies each one that another clause becomes by this many variables in front.
fn compare_all(
    kernel: &mut Kernel,
    alloc: Global,
    asked: &Handle,
    clause: &Handle,
    left: u32,
) -> Result<(), Refusal>
    requires asked_live { IsLive kernel.old asked.now }
    requires clause_live { IsLive kernel.old clause.now }
    ensures kept { (n : ℕ) → handles_on kernel.old n ≤ handles_on kernel.new n }
{
    if left == 0 {
        let _implied = kernel.implies(alloc, asked, clause)?;
        return Ok(());
    }
    let without = longer(kernel, alloc, clause, left - 1, false)?;
    compare_all(kernel, alloc, asked, &without, left - 1)?;
    let with = longer(kernel, alloc, clause, left - 1, true)?;
    compare_all(kernel, alloc, asked, &with, left - 1)
}

/// A clause with a variable or its opposite more.
fn longer(
    kernel: &mut Kernel,
    alloc: Global,
    clause: &Handle,
    variable: u32,
    value: bool,
) -> Result<Handle, Refusal>
    requires { IsLive kernel.old clause.now }
    ensures live { IfOk result (IsLive kernel.new) }
    ensures kept { (n : ℕ) → handles_on kernel.old n ≤ handles_on kernel.new n }
{
    let literal = literal(kernel, alloc, variable, value)?;
    kernel.or(alloc, clause, &literal)
}
