//! A large group in a table with just the nodes that it may take.
ghost use Rattle.std.specs.Prelude.{IfOk};
ghost use Rattle.dd_store.specs.Table.{IsLive};

use dd_apply::Kernel;
use dd_count::count;
use dd_store::{Handle, Refusal};
use std::alloc::Global;
use std::process::Abort;
use std::test::Fail;

const MEMBERS: u32 = 2048;

const LOW: u32 = 1000;

const HIGH: u32 = 1048;

/// The diagram of whether so many of all variables are true.
fn count_all(kernel: &mut Kernel, alloc: Global) -> Result<Result<Handle, Refusal>, Fail>
    ensures { IfOk result (λ answer. IfOk answer (IsLive kernel.new)) }
{
    let members = Vec::from_slice(alloc, kernel.order())?;
    Ok(count(kernel, alloc, &members, LOW, HIGH))
}

/// The value where the first variables are true, so many of them, is to be this one.
fn expect_value(
    rt: &impl Abort,
    alloc: Global,
    kernel: &Kernel,
    group: &Handle,
    chosen: u32,
    value: bool,
) -> Result<(), Fail>
    requires { IsLive kernel.now group.now }
{
    let mut assignment = Vec::new(alloc);
    for variable in 0..kernel.variables() {
        assignment.push(variable < chosen)?;
    }
    assert!(rt; assignment.len() == kernel.variables() as usize);
    assert!(rt; kernel.value(group, &assignment) == value, "{chosen}");
    Ok(())
}

#[test]
fn a_group_of_2048_members_has_room_in_its_nodes(rt: HostRuntime) -> Result<(), Fail> {
    let alloc = rt.alloc();
    let mut kernel = Kernel::new(alloc, MEMBERS * (HIGH + 2))?;
    for _ in 0..MEMBERS {
        kernel.add_variable(alloc)?;
    }
    let group = count_all(&mut kernel, alloc)??;
    for (chosen, value) in [
        (0, false),
        (LOW - 1, false),
        (LOW, true),
        (HIGH, true),
        (HIGH + 1, false),
        (MEMBERS, false),
    ] {
        expect_value(&rt, alloc, &kernel, &group, chosen, value)?;
    }
    Ok(())
}
