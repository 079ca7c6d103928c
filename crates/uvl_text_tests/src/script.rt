//! What lines of a script are read as.

use std::alloc::Global;
use std::process::Abort;
use std::test::Fail;
use uvl_base::{MOST_LINE_BYTES, Name};
use uvl_script::{Command, LineFault, read_line, split_words};

/// Lines, and what they are read as.
const LINES: [(&[u8], &str); 41] = [
    (b"valid Car Body", "valid [Car] [Body]"),
    (b"valid", "valid"),
    (b"\t valid\tCar  Car \t", "valid [Car] [Car]"),
    (
        b"valid \"Full Grain\" x.Radio",
        "valid [Full Grain] [x.Radio]",
    ),
    (b"\"valid\" \"Car\"\t\"a\tb\"", "valid [Car] [a\tb]"),
    (b"valid # all", "valid [#] [all]"),
    (b"valid a\xC2\xA0b", "valid [a\u{a0}b]"),
    (b"valid \0", "valid [\0]"),
    (b"valid gr\xC3\xB6\xC3\x9Fe\r", "valid [gr\u{f6}\u{df}e]"),
    (b"void", "void"),
    (b" void \r", "void"),
    (b"dead", "dead"),
    (b"\"core\" ", "core"),
    (b"falseopt\r", "falseopt"),
    (b"", "silent"),
    (b"\r", "silent"),
    (b" \t ", "silent"),
    (b"# note", "silent"),
    (b" \t#\"", "silent"),
    (b"valid\r\r", "bad-name"),
    (b"valid \"a\rb\"", "bad-name"),
    (b"valid \"A", "bad-name"),
    (b"\"", "bad-name"),
    (b"valid \"\"", "bad-name"),
    (b"valid \"a\"b", "bad-name"),
    (b"valid a\"b", "bad-name"),
    (b"valid a\"b c\"", "bad-name"),
    (b"valid a\nb", "bad-name"),
    (b"frobnicate \"A", "bad-name"),
    (b"frobnicate", "unknown-command"),
    (b"\xC2\xA0valid", "unknown-command"),
    (b"Valid Car", "unknown-command"),
    (b"\"valid Car\"", "unknown-command"),
    (b"void x", "wrong-arity"),
    (b"void \"x y\"", "wrong-arity"),
    (b"dead x", "wrong-arity"),
    (b"core Car Body", "wrong-arity"),
    (b"falseopt #", "wrong-arity"),
    (b"\xFF", "bad-utf8"),
    (b"# \xFF", "bad-utf8"),
    (b"valid \" \xC3", "bad-utf8"),
];

/// What a line is read as, in words.
fn told(alloc: Global, line: &[u8]) -> Result<String, Fail> {
    match read_line(alloc, line) {
        Ok(None) => Ok(String::from_str(alloc, "silent")?),
        Ok(Some(Command::Void)) => Ok(String::from_str(alloc, "void")?),
        Ok(Some(Command::Dead)) => Ok(String::from_str(alloc, "dead")?),
        Ok(Some(Command::Core)) => Ok(String::from_str(alloc, "core")?),
        Ok(Some(Command::FalseOpt)) => Ok(String::from_str(alloc, "falseopt")?),
        Ok(Some(Command::Valid(names))) => listed(alloc, "valid", names.as_slice()),
        Err(fault) => Ok(String::from_str(alloc, fault.word().unwrap_or("out of memory"))?),
    }
}

fn listed(alloc: Global, head: &str, names: &[Name]) -> Result<String, Fail> {
    let mut text = String::from_str(alloc, head)?;
    for name in names {
        text.push_str(" [")?;
        text.push_str(name.text())?;
        text.push_str("]")?;
    }
    Ok(text)
}

fn expect_told(rt: &impl Abort, alloc: Global, rows: &[(&[u8], &str)]) -> Result<(), Fail> {
    for (line, wanted) in rows {
        let said = told(alloc, line)?;
        assert_eq!(rt; said.as_str(), *wanted, "{line:?}");
    }
    Ok(())
}

#[test]
fn each_line_is_a_command_or_silent_or_has_its_first_fault(rt: HostRuntime) -> Result<(), Fail> {
    expect_told(&rt, rt.alloc(), &LINES)
}

/// A byte, how often it stands in a line, how many CRs stand behind it, and what that is read as.
const LONG: [(u8, usize, usize, &str); 6] = [
    (b'a', MOST_LINE_BYTES, 0, "unknown-command"),
    (b'a', MOST_LINE_BYTES, 1, "unknown-command"),
    (b'a', MOST_LINE_BYTES, 2, "too-long"),
    (b'a', MOST_LINE_BYTES + 1, 0, "too-long"),
    (b'\xFF', MOST_LINE_BYTES, 0, "bad-utf8"),
    (b'\xFF', MOST_LINE_BYTES + 1, 0, "too-long"),
];

fn expect_long(
    rt: &impl Abort,
    alloc: Global,
    rows: &[(u8, usize, usize, &str)],
) -> Result<(), Fail> {
    for (byte, times, crs, wanted) in rows {
        let mut line = vec![in alloc; *byte; *times]?;
        for _ in 0..*crs {
            line.push(b'\r')?;
        }
        let said = told(alloc, &line)?;
        assert_eq!(rt; said.as_str(), *wanted);
    }
    Ok(())
}

#[test]
fn a_line_is_too_long_by_its_bytes_without_the_line_end(rt: HostRuntime) -> Result<(), Fail> {
    expect_long(&rt, rt.alloc(), &LONG)
}

/// Lines, and their words or why they have none.
const WORDS: [(&[u8], &str); 5] = [
    (b"\"a b\" c\r", "words [a b] [c]"),
    (b"# a comment \"", "words"),
    (b" \t", "words"),
    (b"\xFF", "bad-utf8"),
    (b"a\"", "bad-name"),
];

fn words_told(alloc: Global, line: &[u8]) -> Result<String, Fail> {
    match split_words(alloc, line) {
        Ok(names) => listed(alloc, "words", &names),
        Err(fault) => {
            let word = LineFault::from(fault).word();
            Ok(String::from_str(alloc, word.unwrap_or("out of memory"))?)
        }
    }
}

fn expect_words(rt: &impl Abort, alloc: Global, rows: &[(&[u8], &str)]) -> Result<(), Fail> {
    for (line, wanted) in rows {
        let said = words_told(alloc, line)?;
        assert_eq!(rt; said.as_str(), *wanted, "{line:?}");
    }
    Ok(())
}

#[test]
fn a_line_without_a_command_still_has_words(rt: HostRuntime) -> Result<(), Fail> {
    expect_words(&rt, rt.alloc(), &WORDS)
}
