//! References. The trees are tested where they are made, with the parser.
use std::alloc::Global;
use std::process::Abort;
use std::test::Fail;
use uvl_ast::Names;
use uvl_base::Name;

/// As many names as stand in a reference without memory of its own, fewer, and more.
const ROWS: [&[&str]; 3] = [&["a"], &["a", "b", "c", "d"], &["e", "d", "c", "b", "a"]];

fn expect_kept(rt: &impl Abort, names: &Names, row: &[&str]) {
    let names = names.as_slice();
    assert_eq!(rt; names.len(), row.len());
    for (name, text) in names.iter().zip(row) {
        assert_eq!(rt; name.text(), *text);
    }
}

fn expect_names(rt: &impl Abort, alloc: Global, rows: &[&[&str]]) -> Result<(), Fail> {
    for row in rows {
        let mut pushed = Names::new(alloc);
        let mut names = Vec::new(alloc);
        for text in *row {
            pushed.push(Name::new(alloc, text)?)?;
            names.push(Name::new(alloc, text)?)?;
        }
        expect_kept(rt, &pushed, row);
        expect_kept(rt, &Names::from_vec(names), row);
    }
    Ok(())
}

#[test]
fn a_reference_has_its_names_in_their_order(rt: HostRuntime) -> Result<(), Fail> {
    expect_names(&rt, rt.alloc(), &ROWS)
}
