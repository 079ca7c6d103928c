//! The first named fault of a text's tokens, by rows and at the limits.
use crate::texts::{Parts, chain, joined};
use crate::tokens::{FRONT, tokens_of};
use std::alloc::Global;
use std::process::Abort;
use std::test::Fail;
use uvl_base::FaultKind::{
    self, Average, ExpressionTooLarge, FeatureCardinality, TooDeep, TypedFeature,
    UnsupportedOperation,
};
use uvl_base::Place;
use uvl_faults::first_named;
use uvl_profile::first_met;

/// Line, column and kind of a fault.
type At = (u32, u32, FaultKind);

/// Where the first is, and what it is there.
fn first(rt: &impl Abort, alloc: Global, text: &str) -> Result<Option<At>, Fail> {
    let tokens = tokens_of(alloc, text)?;
    let met = first_met(alloc, &tokens)?;
    assert!(rt; first_named(alloc, &tokens)? == met, "{text:?}");
    match met {
        Some(found) => {
            let Place { line, column } = tokens[found.index].place;
            Ok(Some((line, column, found.met.alive)))
        }
        None => Ok(None),
    }
}

fn expect(rt: &impl Abort, alloc: Global, text: &str, want: Option<At>) -> Result<(), Fail> {
    let found = first(rt, alloc, text)?;
    assert_eq!(rt; found, want, "{text:?}");
    Ok(())
}

fn expect_rows(rt: &impl Abort, alloc: Global, rows: &[(&str, Option<At>)]) -> Result<(), Fail> {
    for (text, want) in rows {
        expect(rt, alloc, text, *want)?;
    }
    Ok(())
}

fn expect_joined(rt: &impl Abort, alloc: Global, rows: &[(Parts, Option<At>)]) -> Result<(), Fail> {
    for (parts, want) in rows {
        expect(rt, alloc, joined(alloc, parts)?.as_str(), *want)?;
    }
    Ok(())
}

/// Texts where a fault is met, and some with the same words where none is.
const WORDS: [(&str, Option<At>); 28] = [
    ("features\n\tInteger Speed\n", Some((2, 2, TypedFeature))),
    (
        "features\n\tA\n\t\tor\n\t\t\tString B\n",
        Some((4, 4, TypedFeature)),
    ),
    (
        "features\n\tA cardinality [1..3]\n",
        Some((2, 4, FeatureCardinality)),
    ),
    ("features cardinality\n", Some((1, 10, FeatureCardinality))),
    (
        "features\n\tA\nconstraints\n\tavg(x) > 2\n",
        Some((4, 2, Average)),
    ),
    ("include\navg\n", Some((2, 1, Average))),
    ("include\n\tx\navg\n", Some((3, 1, Average))),
    ("namespace avg\n", Some((1, 11, Average))),
    ("constraints 'x'\n", Some((1, 13, UnsupportedOperation))),
    (
        "constraints\n\tA == 'x'\n",
        Some((2, 7, UnsupportedOperation)),
    ),
    (
        "constraints\n\tA / 2 > 1\n",
        Some((2, 4, UnsupportedOperation)),
    ),
    (
        "constraints\n\tA > ceil(B)\n",
        Some((2, 6, UnsupportedOperation)),
    ),
    (
        "constraints\n\tsum(a, b) > 1\n",
        Some((2, 7, UnsupportedOperation)),
    ),
    ("include\n\tx\nlen\n", Some((3, 1, UnsupportedOperation))),
    ("", None),
    ("features\n\tBoolean F\n", None),
    ("features\nString\n", None),
    ("features String\n", None),
    ("features\n\tA {String 1}\n", None),
    ("features\n\tA {\nString 1}\n", None),
    ("features\n\tcardinality\n", None),
    ("features\n\tA {cardinality 1}\n", None),
    ("imports\n\tcardinality\n\tA cardinality\n", None),
    ("include avg\n", None),
    ("include\n\tavg.*\n\tlen floor ceil\n", None),
    ("features\n\tA {constraint B == 'x'}\n", None),
    ("features\n\tA {t 'x', constraints [B, C], s 'y'}\n", None),
    ("constraints\n\tsum(a) > 1\n", None),
];

#[test]
fn a_word_is_a_fault_where_it_is_met(rt: HostRuntime) -> Result<(), Fail> {
    expect_rows(&rt, rt.alloc(), &WORDS)
}

/// Brackets and `!` nest 128 deep.
const NESTING: [(Parts, Option<At>); 11] = [
    (&[FRONT, ("!", 128), ("A\n", 1)], None),
    (&[FRONT, ("!", 128), ("A & !B\n", 1)], None),
    (&[FRONT, ("!", 127), ("(A) | !(B)\n", 1)], None),
    (&[FRONT, ("(", 128), ("A", 1), (")", 128), ("\n", 1)], None),
    (
        &[
            ("features\n\tA {constraints [", 1),
            ("!", 126),
            ("A, !B]}\n", 1),
        ],
        None,
    ),
    (&[FRONT, ("!", 129), ("A\n", 1)], Some((4, 130, TooDeep))),
    (
        &[FRONT, ("!", 127), ("(A & !B)\n", 1)],
        Some((4, 134, TooDeep)),
    ),
    (
        &[FRONT, ("!", 127), ("(B & (C))\n", 1)],
        Some((4, 134, TooDeep)),
    ),
    (
        &[FRONT, ("(", 129), (")", 129), ("\n", 1)],
        Some((4, 130, TooDeep)),
    ),
    (
        &[
            ("features\n\tA {constraints [", 1),
            ("!", 127),
            ("B]}\n", 1),
        ],
        Some((2, 144, TooDeep)),
    ),
    (
        &[("imports\n\t", 1), ("[", 129), ("]", 129)],
        Some((2, 130, TooDeep)),
    ),
];

/// A rule has 8,192 nodes.
const NODES: [(Parts, Option<At>); 11] = [
    (&[FRONT, ("A &", 4095), ("!A\n", 1)], None),
    (&[FRONT, ("(A.b.c) &", 4095), ("!A\n\tB & C\n", 1)], None),
    (&[FRONT, ("sum(a) +", 4094), ("-1 > 0\n", 1)], None),
    (
        &[
            ("features\n\tA {constraint A", 1),
            ("& A", 4095),
            (", p -1, constraint B}\n", 1),
        ],
        None,
    ),
    (
        &[
            ("features\n\tA {constraints [A", 1),
            ("& A", 4095),
            (", B & C]}\n", 1),
        ],
        None,
    ),
    (
        &[("include\n\tconstraint ", 1), ("A * ", 9000), ("\n", 1)],
        None,
    ),
    (
        &[FRONT, ("A &", 4096), ("B\n", 1)],
        Some((4, 12290, ExpressionTooLarge)),
    ),
    (
        &[FRONT, ("(A)+", 4096), ("-1 > 0\n", 1)],
        Some((4, 16386, ExpressionTooLarge)),
    ),
    (
        &[FRONT, ("A -", 4096), ("sum(b) > 0\n", 1)],
        Some((4, 12290, ExpressionTooLarge)),
    ),
    (
        &[("features\n\tA {constraint A", 1), ("&B", 4096), ("}\n", 1)],
        Some((2, 8208, ExpressionTooLarge)),
    ),
    (
        &[
            ("features\n\tA {constraints [C,A", 1),
            ("&B", 4096),
            ("]}\n", 1),
        ],
        Some((2, 8212, ExpressionTooLarge)),
    ),
];

#[test]
fn lines_nest_128_deep_and_a_rule_has_8192_nodes(rt: HostRuntime) -> Result<(), Fail> {
    expect_joined(&rt, rt.alloc(), &NESTING)?;
    expect_joined(&rt, rt.alloc(), &NODES)
}

/// How deep features nest, and what the last line begins with.
const DEPTHS: [(usize, &str, Option<At>); 4] = [
    (64, "Boolean ", None),
    (65, "", Some((130, 130, TooDeep))),
    (66, "", Some((130, 130, TooDeep))),
    (65, "Boolean ", Some((130, 138, TooDeep))),
];

fn expect_chains(
    rt: &impl Abort,
    alloc: Global,
    rows: &[(usize, &str, Option<At>)],
) -> Result<(), Fail> {
    for (depth, word, want) in rows {
        expect(rt, alloc, chain(alloc, *depth, word)?.as_str(), *want)?;
    }
    Ok(())
}

#[test]
fn features_nest_64_deep(rt: HostRuntime) -> Result<(), Fail> {
    expect_chains(&rt, rt.alloc(), &DEPTHS)
}
