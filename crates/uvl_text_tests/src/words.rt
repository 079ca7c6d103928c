//! Lists of words, and what they ask for.
use std::alloc::Global;
use std::process::Abort;
use std::test::Fail;
use uvl_words::{Request, read_words};

/// Words that ask for a model with a budget.
const ASKING: [(&[&str], &str, u32); 13] = [
    (&["m.uvl"], "m.uvl", 1_048_576),
    (&["m.uvl", "--"], "m.uvl", 1_048_576),
    (&["--", "m.uvl"], "m.uvl", 1_048_576),
    (&["--", "-x"], "-x", 1_048_576),
    (&["--", "-"], "-", 1_048_576),
    (&["--", "--"], "--", 1_048_576),
    (&["--", "--budget=16"], "--budget=16", 1_048_576),
    (&["--budget", "16", "m.uvl"], "m.uvl", 16),
    (&["m.uvl", "--budget", "16777216"], "m.uvl", 16_777_216),
    (&["--budget=00000016", "m.uvl"], "m.uvl", 16),
    (&["m.uvl", "--budget=4096", "--"], "m.uvl", 4096),
    (&["--budget", "100", "--", "-b"], "-b", 100),
    (&["budget", "--budget=99"], "budget", 99),
];

/// Words that are refused.
const REFUSED: [&[&str]; 28] = [
    &[],
    &[""],
    &["--"],
    &["--", ""],
    &["-"],
    &["-b"],
    &["--help"],
    &["-h"],
    &["--version"],
    &["--demo", "5"],
    &["--budge", "16", "m.uvl"],
    &["--budgets=16", "m.uvl"],
    &["a.uvl", "b.uvl"],
    &["a.uvl", "--", "b.uvl"],
    &["--", "a.uvl", "--"],
    &["--budget", "16"],
    &["m.uvl", "--budget"],
    &["--budget", "--", "m.uvl"],
    &["--budget=", "m.uvl"],
    &["--budget", "", "m.uvl"],
    &["--budget", "15", "m.uvl"],
    &["--budget=16777217", "m.uvl"],
    &["--budget", "000000016", "m.uvl"],
    &["--budget", "+16", "m.uvl"],
    &["--budget", "-16", "m.uvl"],
    &["--budget=0x10", "m.uvl"],
    &["--budget", "16", "--budget", "16", "m.uvl"],
    &["--budget=16", "m.uvl", "--budget=17"],
];

fn expect_asked(rt: &impl Abort, alloc: Global, rows: &[(&[&str], &str, u32)]) -> Result<(), Fail> {
    for (words, path, budget) in rows {
        let request = Request::Model {
            path: *path,
            budget: *budget,
        };
        assert_eq!(rt; read_words(alloc, words)?, Some(request));
    }
    Ok(())
}

fn expect_refused(rt: &impl Abort, alloc: Global, rows: &[&[&str]]) -> Result<(), Fail> {
    for words in rows {
        assert!(rt; read_words(alloc, words)?.is_none(), "{words:?}");
    }
    Ok(())
}

#[test]
fn words_ask_for_a_model_or_are_refused(rt: HostRuntime) -> Result<(), Fail> {
    expect_asked(&rt, rt.alloc(), &ASKING)?;
    expect_refused(&rt, rt.alloc(), &REFUSED)
}
