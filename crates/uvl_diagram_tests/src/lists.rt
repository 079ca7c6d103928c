//! Plain lists of truth values, and handles on the functions that have them.
ghost use Rattle.std.specs.Prelude.{IfOk};
ghost use Rattle.dd_store.specs.Handles.{GainsHandle};
ghost use Rattle.dd_store.specs.Table.{IsLive};

use dd_apply::Kernel;
use dd_store::{Handle, Refusal, Var};
use std::alloc::Global;
use std::process::Abort;

/// How many variables the tables with lists of truth values have. A list has a bit for each assignment: bit r is the
/// value where the last variable is bit 0 of r, the one before bit 1, and so on.
pub(crate) const VARIABLES: u32 = 6;
/// The list of the constant yes.
pub(crate) const YES: u64 = 0xffff_ffff_ffff_ffff;
/// The lists of the variables.
pub(crate) const LISTS: [u64; 6] = [
    0xffff_ffff_0000_0000,
    0xffff_0000_ffff_0000,
    0xff00_ff00_ff00_ff00,
    0xf0f0_f0f0_f0f0_f0f0,
    0xcccc_cccc_cccc_cccc,
    0xaaaa_aaaa_aaaa_aaaa,
];

/// The first bits of a handle's list of truth values, so many of them.
pub(crate) fn list_of(rt: &impl Abort, kernel: &Kernel, handle: &Handle, rows: u32) -> u64
    requires { IsLive kernel.now handle.now }
{
    assert!(rt; kernel.variables() == VARIABLES);
    let mut list = 0u64;
    for row in 0..rows.min(64) {
        let assignment = [
            row & 32 != 0,
            row & 16 != 0,
            row & 8 != 0,
            row & 4 != 0,
            row & 2 != 0,
            row & 1 != 0,
        ];
        if kernel.value(handle, &assignment) {
            list |= 1u64 << row;
        }
    }
    list
}

/// A handle on a variable's value, with its constants given back.
pub(crate) fn literal(kernel: &mut Kernel, alloc: Global, variable: u32) -> Result<Handle, Refusal>
    ensures gained { IfOk result (GainsHandle kernel.old kernel.new) }
{
    if variable >= kernel.variables() {
        return Err(Refusal::OutOfMemory);
    }
    let no = kernel.constant(false)?;
    let yes = kernel.constant(true)?;
    let made = kernel.node(alloc, Var(variable), &no, &yes)?;
    kernel.release(no);
    kernel.release(yes);
    Ok(made)
}

/// A handle on a function of the last variables, so many of them, by its list.
pub(crate) fn function(
    kernel: &mut Kernel,
    alloc: Global,
    list: u64,
    variables: u32,
) -> Result<Handle, Refusal>
    ensures gained { IfOk result (GainsHandle kernel.old kernel.new) }
{
    if variables == 0 || variables > VARIABLES {
        return Ok(kernel.constant(list & 1 != 0)?);
    }
    let rows = 1u32 << (variables - 1);
    let low = function(kernel, alloc, list, variables - 1)?;
    let high = function(
        kernel,
        alloc,
        list.checked_shr(rows).unwrap_or(0),
        variables - 1,
    )?;
    let variable = literal(kernel, alloc, VARIABLES - variables)?;
    let made = kernel.ite(alloc, &variable, &high, &low)?;
    kernel.release(low);
    kernel.release(high);
    kernel.release(variable);
    Ok(made)
}

/// The next number of a sequence without a pattern (Marsaglia 2003).
pub(crate) fn next(seed: u32) -> u32 {
    let first = seed ^ (seed << 13);
    let second = first ^ (first >> 17);
    second ^ (second << 5)
}
