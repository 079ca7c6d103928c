//! The levels of a group's members.
ghost use Rattle.std.specs.Prelude.{IfOk};
ghost use Rattle.dd_count.specs.Levels.{AreLevelsOf};
ghost use Rattle.dd_count.specs.Members.{AreMembers};

use dd_apply::Kernel;
use dd_store::{OutOfMemory, Var};
use std::alloc::Global;

/// The levels of the members, from the top down.
pub(crate) fn levels_of(
    kernel: &Kernel,
    alloc: Global,
    members: &[Var],
) -> Result<Vec<u32>, OutOfMemory>
    requires { AreMembers kernel.now members.now }
    ensures { IfOk result (λ levels. AreLevelsOf kernel.now.order members.now levels.items) }
{
    // The table is sound also where nothing is done.
    let _order = kernel.order();
    let mut levels = Vec::with_capacity(alloc, members.len())?;
    for member in members {
        levels.push(kernel.level(*member))?;
    }
    levels.sort()?;
    Ok(levels)
}
