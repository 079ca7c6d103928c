//! The diagrams of models, against the products that their files have by hand.
ghost use Rattle.dd_store.specs.Table.{IsLive};

use crate::texts::{PRODUCTS_OF_THIN, THIN, model_of};
use dd_apply::Kernel;
use dd_store::{Handle, Var};
use std::alloc::Global;
use std::process::Abort;
use std::test::Fail;
use uvl_compile::{Names, compile, compile_rule, compile_tree};

/// Assignments, and what the value under each is to be.
fn expect_values(rt: &impl Abort, kernel: &Kernel, handle: &Handle, rows: &[(&[bool], bool)])
    requires { IsLive kernel.now handle.now }
{
    for (assignment, value) in rows {
        assert!(rt; assignment.len() == kernel.variables() as usize);
        assert!(rt;
            kernel.value(handle, assignment) == *value,
            "{assignment:?}"
        );
    }
}

/// The products of a model are those of its diagram, in a table with so many nodes.
fn expect_diagram(
    rt: &impl Abort,
    alloc: Global,
    text: &str,
    budget: u32,
    rows: &[(&[bool], bool)],
) -> Result<(), Fail> {
    if budget < 16 || budget > 16_777_216 {
        return Err(Fail::from("no budget"));
    }
    let model = model_of(alloc, text)?;
    let mut kernel = Kernel::new(alloc, budget)?;
    let mut names = Names::new(alloc);
    let map = names.place(&mut kernel, alloc, &model)?;
    assert!(rt; names.name(Var(0)).is_some());
    let products = compile(&mut kernel, alloc, &model, &map)?;
    expect_values(rt, &kernel, &products, rows);
    assert!(rt; kernel.constant_of(&products) == None);
    Ok(())
}

/// Which choices of A, B and C are products of a choice of one of two, of which B excludes C by a rule too.
const ONE_OF_TWO: [(&[bool], bool); 5] = [
    (&[true, true, false], true),
    (&[true, false, true], true),
    (&[true, true, true], false),
    (&[true, false, false], false),
    (&[false, true, false], false),
];

#[test]
fn the_diagram_of_a_model_has_its_products(rt: HostRuntime) -> Result<(), Fail> {
    let alloc = rt.alloc();
    expect_diagram(&rt, alloc, THIN, 16, &PRODUCTS_OF_THIN)?;
    let text = "features\n\tA\n\t\tor\n\t\t\tB\n\t\t\tC\nconstraints\n\t!(B & C)\n";
    expect_diagram(&rt, alloc, text, 1_048_576, &ONE_OF_TWO)
}

/// What the tree of that model says, and what its rule says, where each has a diagram of its own.
const TREE_OF_OR: [(&[bool], bool); 4] = [
    (&[true, true, true], true),
    (&[true, false, true], true),
    (&[true, false, false], false),
    (&[false, true, false], false),
];

const RULE_OF_OR: [(&[bool], bool); 3] = [
    (&[true, true, true], false),
    (&[false, true, true], false),
    (&[false, true, false], true),
];

#[test]
fn a_tree_and_a_rule_have_diagrams_of_their_own(rt: HostRuntime) -> Result<(), Fail> {
    let alloc = rt.alloc();
    let text = "features\n\tA\n\t\tor\n\t\t\tB\n\t\t\tC\nconstraints\n\t!(B & C)\n";
    let model = model_of(alloc, text)?;
    let mut kernel = Kernel::new(alloc, 1_048_576)?;
    let mut names = Names::new(alloc);
    let map = names.place(&mut kernel, alloc, &model)?;
    let tree = compile_tree(&mut kernel, alloc, &model, &map)?;
    expect_values(&rt, &kernel, &tree, &TREE_OF_OR);
    let Some(rule) = model.rules().first() else {
        return Err(Fail::from("no rule"));
    };
    let made = compile_rule(&mut kernel, alloc, &model, &map, rule)?;
    expect_values(&rt, &kernel, &made, &RULE_OF_OR);
    Ok(())
}
