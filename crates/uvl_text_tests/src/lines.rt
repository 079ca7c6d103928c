//! A script whose lines are answered by what counts them: how it ends, and what is written.
ghost use Rattle.std.specs.Prelude.{◌≡◌, ◌≤◌};
ghost use Rattle.uvl_script.specs.declared.command.Command.{Command as CommandValue};

use std::alloc::Global;
use std::process::Abort;
use std::test::Fail;
use uvl_lines::{AnswerFault, Answerer, Ending, answer_lines, push_refusal};
use uvl_outside::{FetchFault, Files, MemFiles, MemSink, MemSource};
use uvl_script::Command;

/// Answers `valid` with names with a refusal, `void` with the file `m`, and else with how many commands it
/// has answered.
#[derive(Drop)]
struct Counter {
    count: u8,
}

impl Answerer for Counter {
    // The count doesn't fall.
    ghost replies = { λ _ before _ _ after. before.count ≤ after.count };

    ghost fetches = { λ _ command. command ≡ CommandValue.Void };

    fn answer<F: Files>(
        &mut self,
        alloc: Global,
        files: &mut F,
        command: &Command,
        into: &mut Vec<u8>,
    ) -> Result<(), AnswerFault> {
        self.count = self.count.saturating_add(1);
        match command {
            Command::Void => match files.fetch(alloc, "m", 64, into) {
                Ok(_) => Ok(()),
                Err(FetchFault::Failed) => Err(AnswerFault::FetchFailed),
                Err(FetchFault::OutOfMemory) => Err(AnswerFault::OutOfMemory),
            },
            Command::Valid(names) if !names.is_empty() => Ok(push_refusal("names", into)?),
            _ => {
                into.extend_from_slice(&[b'0' + self.count % 10, b'\n', b'.', b'\n'])?;
                Ok(())
            }
        }
    }
}

/// A script, the calls of files, input and output that fail, the ending, and what is written.
type Row<'a> = (&'a [u8], [&'a [u64]; 3], Ending, &'a [u8]);

const ROWS: [Row; 7] = [
    (b"", [&[], &[], &[]], Ending::Done, b""),
    (
        b"valid\nvoid\r\n\n# note\nvalid A\nvalid",
        [&[], &[], &[]],
        Ending::Done,
        b"1\n.\nfile\n.\nrefused names\n.\n4\n.\n",
    ),
    (
        b"x\nvalid \"A\nvalid\n\xFF\n",
        [&[], &[], &[]],
        Ending::Done,
        b"refused unknown-command\n.\nrefused bad-name\n.\n1\n.\nrefused bad-utf8\n.\n",
    ),
    (
        b"valid\nvoid\nvalid\n",
        [&[1], &[], &[]],
        Ending::FetchFailed,
        b"1\n.\n",
    ),
    (
        b"void\nvoid\n",
        [&[2], &[], &[]],
        Ending::FetchFailed,
        b"file\n.\n",
    ),
    (b"valid\nvalid", [&[], &[], &[1]], Ending::WriteFailed, b""),
    (b"valid\nvalid", [&[], &[1], &[]], Ending::InputFailed, b""),
];

/// Answers a script in pieces of a size, and compares how it ends and what is written.
fn expect(rt: &impl Abort, alloc: Global, row: &Row, size: usize) -> Result<(), Fail> {
    let (script, fail, ending, written) = row;
    let mut files = MemFiles::new(alloc, fail[0])?;
    files.add(alloc, "m", b"file\n.\n")?;
    let mut input = MemSource::new(alloc, script, &[size; 32], fail[1])?;
    let mut out = MemSink::new(alloc, fail[2])?;
    let mut counter = Counter { count: 0 };
    let ended = answer_lines(alloc, &mut counter, &mut files, &mut input, &mut out);
    assert_eq!(rt; ended, *ending, "{script:?} by {size}");
    assert!(rt; out.bytes() == *written, "{script:?} by {size}");
    Ok(())
}

fn expect_rows(rt: &impl Abort, alloc: Global, rows: &[Row]) -> Result<(), Fail> {
    for row in rows {
        expect(rt, alloc, row, 1)?;
        expect(rt, alloc, row, 7)?;
        expect(rt, alloc, row, 64)?;
    }
    Ok(())
}

#[test]
fn lines_are_answered_one_after_another_in_any_pieces(rt: HostRuntime) -> Result<(), Fail> {
    expect_rows(&rt, rt.alloc(), &ROWS)
}
