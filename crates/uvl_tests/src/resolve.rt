//! A model of all kinds of groups, row by row, models of several files, and what is wrong in others.
use crate::texts::{Source, model_of, model_of_files};
use std::alloc::Global;
use std::fmt::Write;
use std::process::Abort;
use std::test::Fail;
use uvl_model::{FeatureNo, FeatureRow, GroupRow};
use uvl_text_tests::texts::chain;

/// A car of eight features.
const CAR: &str = "namespace Cars\n\
    include\n\
    \tArithmetic.*\n\
    features\n\
    \tCar\n\
    \t\tmandatory\n\
    \t\t\tBody\n\
    \t\t\tEngine\n\
    \t\t\t\toptional\n\
    \t\t\t\t\tTurbo\n\
    \t\t\t\t\t\tmandatory\n\
    \t\t\t\t\t\t\tCooler\n\
    \t\t\t\t\tHybrid\n\
    \t\t[1..*]\n\
    \t\t\tRadio\n\
    \t\t\t\t[3..9]\n\
    \t\t\t\t\tAntenna\n";

/// The names of features, and the numbers of their parents.
const FEATURES: [(&str, Option<FeatureNo>); 8] = [
    ("Car", None),
    ("Body", Some(FeatureNo(0))),
    ("Engine", Some(FeatureNo(0))),
    ("Turbo", Some(FeatureNo(2))),
    ("Cooler", Some(FeatureNo(3))),
    ("Hybrid", Some(FeatureNo(2))),
    ("Radio", Some(FeatureNo(0))),
    ("Antenna", Some(FeatureNo(6))),
];

/// The parents of groups, their bounds and their members.
const GROUPS: [(FeatureNo, u32, u32, &[FeatureNo]); 5] = [
    (FeatureNo(0), 2, 2, &[FeatureNo(1), FeatureNo(2)]),
    (FeatureNo(2), 0, 2, &[FeatureNo(3), FeatureNo(5)]),
    (FeatureNo(3), 1, 1, &[FeatureNo(4)]),
    (FeatureNo(0), 1, 1, &[FeatureNo(6)]),
    // beyond the member: no set fits
    (FeatureNo(6), 2, 1, &[FeatureNo(7)]),
];

fn expect_features(rt: &impl Abort, rows: &[FeatureRow], wanted: &[(&str, Option<FeatureNo>)]) {
    assert!(rt; rows.len() == wanted.len());
    for index in 0..rows.len() {
        let (name, parent) = wanted[index];
        let row = &rows[index];
        assert!(rt; row.name.text() == name, "{name}");
        assert!(rt; row.parent == parent, "{name}");
    }
}

fn expect_groups(
    rt: &impl Abort,
    rows: &[GroupRow],
    wanted: &[(FeatureNo, u32, u32, &[FeatureNo])],
) {
    assert!(rt; rows.len() == wanted.len());
    for index in 0..rows.len() {
        let (parent, lo, hi, members) = wanted[index];
        let row = &rows[index];
        assert!(rt;
            row.parent == parent && row.lo == lo && row.hi == hi,
            "{index}"
        );
        assert!(rt; row.members.as_slice() == members, "{index}");
    }
}

#[test]
fn the_rows_stand_as_the_walk_meets_them(rt: HostRuntime) -> Result<(), Fail> {
    let model = model_of(rt.alloc(), CAR)?;
    expect_features(&rt, model.features(), &FEATURES);
    expect_groups(&rt, model.groups(), &GROUPS);
    Ok(())
}

/// Files that another one places.
const RADIO: Source = (
    "radio.uvl",
    "features\n\tRadio\n\t\toptional\n\t\t\tDAB\nconstraints\n\tRadio => DAB\n",
);

/// Sets of files, how many features and rules the model of each has, and what is wrong where it has none.
const SETS: [(&[Source], usize, usize, &str); 12] = [
    (
        &[(
            "m.uvl",
            "features\n\tCar\n\t\tor\n\t\t\tBody {Price 3.5, constraint Car}\nconstraints\n\t!Body | Car\n",
        )],
        2,
        2,
        "",
    ),
    (
        &[
            (
                "m.uvl",
                "imports\n\tradio as x\n\tradio as y\nfeatures\n\tCar\n\t\tor\n\t\t\tx.Radio\n\t\t\ty.Radio\n",
            ),
            RADIO,
        ],
        5,
        2,
        "",
    ),
    // a file that is imported and not placed adds nothing
    (
        &[("m.uvl", "imports\n\tradio\nfeatures\n\tCar\n"), RADIO],
        1,
        0,
        "",
    ),
    (&[("m.uvl", "")], 0, 0, "m.uvl:1:1 E28 MissingFeatures"),
    (
        &[("m.uvl", "features\n\tCar\n\t\tmandatory\n\t\t\tCar\n")],
        0,
        0,
        "m.uvl:4:4 E13 DuplicateFeature",
    ),
    (
        &[("m.uvl", "features\n\tCar {a, a}\n")],
        0,
        0,
        "m.uvl:2:10 E14 DuplicateAttribute",
    ),
    (
        &[("m.uvl", "features\n\tCar\n\t\toptional\n\t\t\tb.Body\n")],
        0,
        0,
        "m.uvl:4:4 E15 UnknownFeature",
    ),
    (
        &[("m.uvl", "features\n\tCar\nconstraints\n\tCar => Body\n")],
        0,
        0,
        "m.uvl:4:9 E15 UnknownFeature",
    ),
    (
        &[("m.uvl", "features\n\tCar\n\t\t[2..1]\n\t\t\tA\n\t\t\tB\n")],
        0,
        0,
        "m.uvl:3:3 E19 BadRange",
    ),
    (
        &[
            (
                "m.uvl",
                "imports\n\tradio as x\nfeatures\n\tCar\n\t\tor\n\t\t\tx.Radio\n\t\t\tx.Radio\n",
            ),
            RADIO,
        ],
        0,
        0,
        "m.uvl:7:4 E22 PlacedTwice",
    ),
    (
        &[
            (
                "m.uvl",
                "imports\n\tradio as x\nfeatures\n\tCar\n\t\tor\n\t\t\tx.Radio {a}\n",
            ),
            RADIO,
        ],
        0,
        0,
        "m.uvl:6:4 E30 BodyOnPlacedImport",
    ),
    (
        &[(
            "m.uvl",
            "features\n\tCar {Price 3}\nconstraints\n\tCar.Price < 4\n",
        )],
        0,
        0,
        "not built",
    ),
];

fn expect(
    rt: &impl Abort,
    alloc: Global,
    sources: &[Source],
    features: usize,
    rules: usize,
    fault: &str,
) -> Result<(), Fail> {
    match model_of_files(alloc, sources)? {
        Ok(model) => {
            assert!(rt; fault.is_empty(), "{sources:?}");
            assert_eq!(rt; model.features().len(), features, "{sources:?}");
            assert_eq!(rt; model.rules().len(), rules, "{sources:?}");
        }
        Err(shown) => assert!(rt; shown.as_str() == fault, "{sources:?}"),
    }
    Ok(())
}

fn expect_sets(
    rt: &impl Abort,
    alloc: Global,
    rows: &[(&[Source], usize, usize, &str)],
) -> Result<(), Fail> {
    for (sources, features, rules, fault) in rows {
        expect(rt, alloc, sources, *features, *rules, fault)?;
    }
    Ok(())
}

/// A car with so many members of one group.
fn crowd(alloc: Global, members: u32) -> Result<String, Fail> {
    let mut text = String::from_str(alloc, "features\n\tCar\n\t\toptional\n")?;
    for member in 0..members {
        write!(text, "\t\t\tf{member}\n")?;
    }
    Ok(text)
}

#[test]
fn each_set_has_its_model_or_its_first_fault(rt: HostRuntime) -> Result<(), Fail> {
    let alloc = rt.alloc();
    expect_sets(&rt, alloc, &SETS)?;
    let most = crowd(alloc, 2047)?;
    expect(&rt, alloc, &[("m.uvl", most.as_str())], 2048, 0, "")?;
    let more = crowd(alloc, 2048)?;
    let fault = "m.uvl:2051:4 E23 TooManyFeatures";
    expect(&rt, alloc, &[("m.uvl", more.as_str())], 0, 0, fault)
}

#[test]
fn a_tree_64_deep_is_built(rt: HostRuntime) -> Result<(), Fail> {
    let text = chain(rt.alloc(), 64, "")?;
    let model = model_of(rt.alloc(), text.as_str())?;
    assert_eq!(rt; model.find("F64"), Some(FeatureNo(63)));
    assert_eq!(rt; model.groups().len(), 63);
    Ok(())
}
