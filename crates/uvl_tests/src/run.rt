//! Runs over objects in memory: each status with its bytes, each file, and scripts in any pieces.
use crate::texts::THIN;
use std::alloc::{AllocError, Global};
use std::process::Abort;
use std::test::Fail;
use uvl_base::{MOST_LINE_BYTES, MOST_SCRIPT_BYTES};
use uvl_outside::{MemFiles, MemSink, MemSource, SureFiles, SureSink, SureSource};
use uvl_run::{Status, run, run_in_memory};

const SCRIPT: &[u8] = b"valid Car Body\nvalid Car Radio\r\n\n# note\nvalid Car Wheel";

const REPLIES: &[u8] = b"yes\n.\nno\n.\nrefused unknown-feature\n.\n";

const USAGE: &[u8] = b"usage: uvl [--budget N] MODEL | uvl [--budget N] --demo N\n";

/// The calls that fail of the files, the input and the output.
type Failing<'a> = [&'a [u64]; 3];

/// No call fails.
const NEVER: Failing<'static> = [&[], &[], &[]];

/// A model whose products take more than sixteen nodes.
const WIDE: &[u8] =
    b"features\n\tA\n\t\talternative\n\t\t\tB\n\t\t\tC\n\t\t\tD\n\t\t\tE\n\t\t\tF\n\t\t\tG\n\t\t\tH\n\t\t\tI\n\t\t\tJ\n\t\t\tK\n";

/// A run over files of which `thin.uvl` and `wide.uvl` are models, `numbers.uvl` is none yet, and `in.uvl` imports
/// a file with a fault, by input in pieces of these sizes. What is written comes into the buffer.
fn run_with(
    alloc: Global,
    words: &[&str],
    script: &[u8],
    sizes: &[usize],
    fail: &Failing,
    out: &mut Vec<u8>,
) -> Result<Status, Fail> {
    let mut files = MemFiles::new(alloc, fail[0])?;
    files.add(alloc, "thin.uvl", THIN.as_bytes())?;
    files.add(alloc, "wide.uvl", WIDE)?;
    files.add(
        alloc,
        "numbers.uvl",
        b"features\n\tA\nconstraints\n\t1 < 2\n",
    )?;
    files.add(alloc, "in.uvl", b"imports\n\tparts\nfeatures\n\tA\n")?;
    files.add(alloc, "parts.uvl", b"features\n\tA\n\t\tor\n\t\t\tA\n")?;
    let mut input = MemSource::new(alloc, script, sizes, fail[1])?;
    let mut sink = MemSink::new(alloc, fail[2])?;
    let status = run(alloc, words, &mut files, &mut input, &mut sink);
    out.clear();
    out.extend_from_slice(sink.bytes())?;
    Ok(status)
}

/// Words, what fails, the status and its number, and what is written.
type Row<'a> = (&'a [&'a str], Failing<'a>, Status, u8, &'a [u8]);

const ROWS: [Row; 14] = [
    (&["thin.uvl"], NEVER, Status::Done, 0, REPLIES),
    (
        &["--budget", "16", "thin.uvl"],
        NEVER,
        Status::Done,
        0,
        REPLIES,
    ),
    (
        &["--budget", "16", "wide.uvl"],
        NEVER,
        Status::OverBudget,
        6,
        b"refused budget\n",
    ),
    (&[], NEVER, Status::Usage, 2, USAGE),
    (&["a.uvl", "b.uvl"], NEVER, Status::Usage, 2, USAGE),
    (
        &["no.uvl"],
        NEVER,
        Status::Model,
        3,
        b"fault no.uvl:1:1 E01 Absent\n",
    ),
    (
        &["numbers.uvl"],
        NEVER,
        Status::Model,
        3,
        b"fault numbers.uvl:1:1 E99 NotBuilt\n",
    ),
    (
        &["in.uvl"],
        NEVER,
        Status::Model,
        3,
        b"fault parts.uvl:4:4 E13 DuplicateFeature\n",
    ),
    // the second file of a set
    (&["in.uvl"], [&[2], &[], &[]], Status::ReadFault, 4, b""),
    (&["thin.uvl"], [&[1], &[], &[]], Status::ReadFault, 4, b""),
    (&["thin.uvl"], [&[], &[1], &[]], Status::ReadFault, 4, b""),
    (
        &["thin.uvl"],
        [&[], &[2], &[]],
        Status::ReadFault,
        4,
        b"yes\n.\nno\n.\n",
    ),
    (&["-"], [&[], &[], &[1]], Status::WriteFault, 5, b""),
    (&["thin.uvl"], [&[], &[], &[1]], Status::WriteFault, 5, b""),
];

fn expect_status(rt: &impl Abort, alloc: Global, row: &Row) -> Result<(), Fail> {
    let (words, fail, status, number, bytes) = row;
    let mut out = Vec::new(alloc);
    let ended = run_with(alloc, words, SCRIPT, &[], fail, &mut out)?;
    assert!(rt;
        ended == *status && ended.number() == *number,
        "at {words:?}"
    );
    assert!(rt; out.as_slice() == *bytes, "at {words:?}");
    Ok(())
}

fn expect_statuses(rt: &impl Abort, alloc: Global, rows: &[Row]) -> Result<(), Fail> {
    for row in rows {
        expect_status(rt, alloc, row)?;
    }
    Ok(())
}

#[test]
fn each_status_comes_with_its_bytes(rt: HostRuntime) -> Result<(), Fail> {
    expect_statuses(&rt, rt.alloc(), &ROWS)?;
    // whole replies are written, and perhaps a front of the next
    let mut out = Vec::new(rt.alloc());
    let ended = run_with(
        rt.alloc(),
        &["thin.uvl"],
        SCRIPT,
        &[],
        &[&[], &[], &[2]],
        &mut out,
    )?;
    assert!(rt; ended == Status::WriteFault);
    assert!(rt; out.len() >= 6 && out.len() < REPLIES.len());
    assert!(rt; out.as_slice() == &REPLIES[..out.len()]);
    Ok(())
}

/// So many bytes `a` as a script, the status, its number, and what is written.
const LONG: [(usize, Status, u8, &[u8]); 2] = [
    (MOST_SCRIPT_BYTES, Status::Done, 0, b"refused too-long\n.\n"),
    (MOST_SCRIPT_BYTES + 1, Status::TooMuchInput, 8, b""),
];

fn expect_long(
    rt: &impl Abort,
    alloc: Global,
    rows: &[(usize, Status, u8, &[u8])],
) -> Result<(), Fail> {
    let mut out = Vec::new(alloc);
    for (size, status, number, bytes) in rows {
        let script = vec![in alloc; b'a'; *size]?;
        let ended = run_with(alloc, &["thin.uvl"], &script, &[], &NEVER, &mut out)?;
        assert!(rt; ended == *status && ended.number() == *number);
        assert!(rt; out.as_slice() == *bytes);
    }
    Ok(())
}

#[test]
fn a_script_has_64_mebibytes_at_most(rt: HostRuntime) -> Result<(), Fail> {
    expect_long(&rt, rt.alloc(), &LONG)
}

/// Lines and their replies.
const LINES: [(&[u8], &str); 19] = [
    (b"valid Car Body", "yes"),
    (b"valid Car Radio\r", "no"),
    (b"valid", "no"),
    (b"", ""),
    (b"# note", ""),
    (b"valid Car Wheel", "refused unknown-feature"),
    (b"valid Wheel Car Body", "refused unknown-feature"),
    (b"void", "no"),
    (b"core", "Car\nBody"),
    (b"valid \"Car\"\tBody", "yes"),
    (b"frobnicate", "refused unknown-command"),
    (b"valid \"A", "refused bad-name"),
    (b"\xFF", "refused bad-utf8"),
    (b"void x", "refused wrong-arity"),
    (b"valid \"\"", "refused bad-name"),
    (b"\"", "refused bad-name"),
    (b"valid Car\0", "refused unknown-feature"),
    (b"valid Car\xC2\xA0Body", "refused unknown-feature"),
    (b"valid Radio Body Car Body", "yes"),
];

/// Puts a line at the end of a script, and its reply at the end of the replies.
fn add_line(
    script: &mut Vec<u8>,
    replies: &mut Vec<u8>,
    line: &[u8],
    reply: &str,
) -> Result<(), AllocError> {
    script.extend_from_slice(line)?;
    script.extend_from_slice(b"\n")?;
    if !reply.is_empty() {
        replies.extend_from_slice(reply.as_bytes())?;
        replies.extend_from_slice(b"\n.\n")?;
    }
    Ok(())
}

/// A script of all lines and long ones, the last not ended, and its replies.
fn all_lines(
    script: &mut Vec<u8>,
    replies: &mut Vec<u8>,
    alloc: Global,
    rows: &[(&[u8], &str)],
) -> Result<(), Fail> {
    let mut long = vec![in alloc; b'a'; MOST_LINE_BYTES]?;
    long.push(b'\r')?;
    add_line(script, replies, &long, "refused unknown-command")?;
    for (line, reply) in rows {
        add_line(script, replies, line, reply)?;
    }
    let longer = vec![in alloc; b'a'; MOST_LINE_BYTES + 1]?;
    add_line(script, replies, &longer, "refused too-long")?;
    add_line(script, replies, b"valid Car Body", "yes")?;
    script.pop();
    Ok(())
}

/// Runs a script in pieces of a size, and compares the replies.
fn expect_replies(
    rt: &impl Abort,
    alloc: Global,
    script: &[u8],
    size: usize,
    replies: &[u8],
) -> Result<(), Fail> {
    let mut out = Vec::new(alloc);
    let sizes = vec![in alloc; size; script.len()]?;
    let ended = run_with(alloc, &["thin.uvl"], script, &sizes, &NEVER, &mut out)?;
    assert!(rt; ended == Status::Done, "pieces of {size}");
    assert!(rt; out.as_slice() == replies, "pieces of {size}");
    Ok(())
}

#[test]
fn the_replies_do_not_depend_on_the_pieces(rt: HostRuntime) -> Result<(), Fail> {
    let alloc = rt.alloc();
    let mut script = Vec::new(alloc);
    let mut replies = Vec::new(alloc);
    all_lines(&mut script, &mut replies, alloc, &LINES)?;
    for size in [1, 2, 3, 5, 65_536, 1_000_000] {
        expect_replies(&rt, alloc, &script, size, &replies)?;
    }
    Ok(())
}

/// What is answered where no feature is called as the script calls them.
const UNKNOWN: &[u8] =
    b"refused unknown-feature\n.\nrefused unknown-feature\n.\nrefused unknown-feature\n.\n";

/// Files of which a model is made, and the faults of others. The first is in another layout: a byte
/// order mark, CR LF, and eight spaces for a tab; the second has a group below a member of a group.
const FILES: [(&[u8], Status, &[u8]); 11] = [
    (
        b"\xEF\xBB\xBFfeatures\r\n        Car\r\n\t\tmandatory\r\n\t\t\tBody\r\n\t\toptional\r\n\t\t\tRadio\r\n",
        Status::Done,
        REPLIES,
    ),
    (
        b"features\n\tCar\n\t\tmandatory\n\t\t\tBody\n\t\t\t\toptional\n\t\t\t\t\tRadio\n",
        Status::Done,
        REPLIES,
    ),
    (
        b"features\n\tCar\n\t\tmandatory\n\t\t\tBody\n\t\toptional\n\t\t\tRadio\n",
        Status::Done,
        REPLIES,
    ),
    (
        b"features\n\tCar\n\t\tor\n\t\t\tBody\n\t\t\tRadio\nconstraints\n\tBody\n",
        Status::Done,
        REPLIES,
    ),
    (b"", Status::Model, b"fault m.uvl:1:1 E28 MissingFeatures\n"),
    (b"features\n\tA {constraints []}\n", Status::Done, UNKNOWN),
    (
        b"features\n\tA\n\t\toptional\n\t\t\tA\n",
        Status::Model,
        b"fault m.uvl:4:4 E13 DuplicateFeature\n",
    ),
    (
        b"features\n\tA\n\xFF",
        Status::Model,
        b"fault m.uvl:1:1 E03 NotUtf8\n",
    ),
    (
        b"features\n\tA $\n",
        Status::Model,
        b"fault m.uvl:2:4 E04 BadCharacter\n",
    ),
    (
        b"features\n\tA\n\t\toptional\n            B\n",
        Status::Model,
        b"fault m.uvl:4:13 E05 BadIndent\n",
    ),
    (b"features", Status::Model, b"fault m.uvl:1:9 E08 Syntax\n"),
];

fn expect_file(
    rt: &impl Abort,
    alloc: Global,
    file: &[u8],
    status: Status,
    bytes: &[u8],
) -> Result<(), Fail> {
    let mut files = SureFiles::new(alloc);
    files.add(alloc, "m.uvl", file)?;
    let mut script = SureSource::new(alloc, SCRIPT)?;
    let mut out = SureSink::new(alloc);
    let ended = run_in_memory(alloc, &["m.uvl"], &mut files, &mut script, &mut out);
    assert!(rt; ended == status, "at {file:?}");
    assert!(rt; out.bytes() == bytes, "at {file:?}");
    Ok(())
}

fn expect_files(
    rt: &impl Abort,
    alloc: Global,
    rows: &[(&[u8], Status, &[u8])],
) -> Result<(), Fail> {
    for (file, status, bytes) in rows {
        expect_file(rt, alloc, file, *status, bytes)?;
    }
    Ok(())
}

#[test]
fn each_file_has_its_answer_in_memory(rt: HostRuntime) -> Result<(), Fail> {
    expect_files(&rt, rt.alloc(), &FILES)
}

/// A car that places one radio twice, of which one of both is in each product, and a radio has DAB.
const CAR: &[u8] =
    b"imports\n\tparts.radio as x\n\tparts.radio as y\nfeatures\n\tCar\n\t\talternative\n\t\t\tx.Radio\n\t\t\ty.Radio\n";

const RADIO: &[u8] = b"features\n\tRadio\n\t\toptional\n\t\t\tDAB\nconstraints\n\tRadio => DAB\n";

#[test]
fn a_model_of_two_files_is_answered(rt: HostRuntime) -> Result<(), Fail> {
    let alloc = rt.alloc();
    let mut files = SureFiles::new(alloc);
    files.add(alloc, "car.uvl", CAR)?;
    files.add(alloc, "parts/radio.uvl", RADIO)?;
    let script =
        b"void\nvalid Car x.Radio\nvalid Car x.Radio x.DAB\nvalid Car \"y.Radio\" y.DAB\nvalid Car Radio\n";
    let mut input = SureSource::new(alloc, script)?;
    let mut out = SureSink::new(alloc);
    let ended = run_in_memory(alloc, &["car.uvl"], &mut files, &mut input, &mut out);
    assert!(rt; ended == Status::Done);
    let replies = b"no\n.\nno\n.\nyes\n.\nyes\n.\nrefused unknown-feature\n.\n";
    assert!(rt; out.bytes() == replies.as_slice());
    Ok(())
}
