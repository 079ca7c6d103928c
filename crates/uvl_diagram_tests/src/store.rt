//! Each call on its happy path, the limit on variables, and a full table with and without what can be freed.
ghost use Rattle.std.specs.Prelude.{IfOk};
ghost use Rattle.dd_store.specs.Table.{IsLive};

use dd_store::{AddRefusal, Handle, NodeNo, Refusal, Store};
use std::alloc::Global;
use std::process::Abort;
use std::test::Fail;

/// Assignments, and what the value under each is to be.
pub(crate) fn expect_values(
    rt: &impl Abort,
    store: &Store,
    handle: &Handle,
    rows: &[(&[bool], bool)],
)
    requires { IsLive store.now handle.now }
{
    for (assignment, value) in rows {
        assert!(rt; assignment.len() == store.variables() as usize);
        assert!(rt; store.value(handle, assignment) == *value, "{assignment:?}");
    }
}

const BOTH: [(&[bool], bool); 4] = [
    (&[false, false], false),
    (&[false, true], false),
    (&[true, false], false),
    (&[true, true], true),
];

#[test]
fn the_diagram_of_x_and_y_has_its_table(rt: HostRuntime) -> Result<(), Fail> {
    let mut store = Store::new(rt.alloc(), 16)?;
    let x = store.add_variable(rt.alloc())?;
    let y = store.add_variable(rt.alloc())?;
    let no = store.constant(false)?;
    let yes = store.constant(true)?;
    let is_y = store.node(rt.alloc(), y, &no, &yes)?;
    let both = store.node(rt.alloc(), x, &no, &is_y)?;
    expect_values(&rt, &store, &both, &BOTH);
    assert!(rt; store.nodes() == 2);
    assert!(rt; store.constant_of(&both) == None);
    let ends = (x, NodeNo::NO, store.node_of(&is_y));
    assert!(rt; store.ends(store.node_of(&both)) == Some(ends));
    Ok(())
}

#[test]
fn a_copy_outlives_its_original(rt: HostRuntime) -> Result<(), Fail> {
    let mut store = Store::new(rt.alloc(), 16)?;
    let no = store.constant(false)?;
    let yes = store.constant(true)?;
    let copy = store.copy(&yes)?;
    store.release(yes);
    assert!(rt; !store.same(&copy, &no));
    assert!(rt; store.constant_of(&copy) == Some(true));
    Ok(())
}

#[test]
fn the_4097th_variable_is_refused(rt: HostRuntime) -> Result<(), Fail> {
    let mut store = Store::new(rt.alloc(), 16)?;
    for _ in 0..4096 {
        store.add_variable(rt.alloc())?;
    }
    assert!(rt; store.add_variable(rt.alloc()) == Err(AddRefusal::TooManyVariables));
    assert!(rt; store.variables() == 4096);
    Ok(())
}

/// Adds a variable and makes the node that is yes where the variable is. Its handle is answered.
fn literal(alloc: Global, store: &mut Store) -> Result<Result<Handle, Refusal>, Fail>
    ensures { IfOk result (λ answer. IfOk answer (IsLive store.new)) }
{
    let variable = store.add_variable(alloc)?;
    let no = store.constant(false)?;
    let yes = store.constant(true)?;
    let literal = store.node(alloc, variable, &no, &yes);
    store.release(no);
    store.release(yes);
    Ok(literal)
}

#[test]
fn a_table_full_of_held_nodes_refuses(rt: HostRuntime) -> Result<(), Fail> {
    let alloc = rt.alloc();
    let mut store = Store::new(alloc, 16)?;
    for _ in 0..16 {
        // a handle that is only dropped stays live
        literal(alloc, &mut store)??;
    }
    let refused = literal(alloc, &mut store)?;
    // beside the sixteen the two constants were held
    let why = Some(Refusal::OverBudget {
        nodes: 16,
        roots: 18,
    });
    assert!(rt; refused.err() == why);
    assert!(rt; store.collect() == 0);
    assert!(rt; store.nodes() == 16);
    Ok(())
}

#[test]
fn a_full_table_frees_what_nobody_holds(rt: HostRuntime) -> Result<(), Fail> {
    let alloc = rt.alloc();
    let mut store = Store::new(alloc, 16)?;
    let kept = literal(alloc, &mut store)??;
    for _ in 0..40 {
        let other = literal(alloc, &mut store)??;
        store.release(other);
    }
    // The 16th and the 31st of the others found the table full, and freed fifteen each.
    assert!(rt; store.nodes() == 11);
    assert!(rt; store.collect() == 10);
    assert!(rt; store.nodes() == 1);
    drop(kept);
    Ok(())
}
