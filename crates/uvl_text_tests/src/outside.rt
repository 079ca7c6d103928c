//! The objects in memory against their plans, and the thin edges over real files and streams.
use crate::texts::joined;
use std::alloc::Global;
use std::fs::OpenOptions;
use std::io::BufWriter;
use std::process::Abort;
use std::test::Fail;
use std::{fs, io};
use uvl_outside::{
    Failed, FetchFault, Fetched, Files, HostFiles, MemFiles, MemSink, MemSource, PutFault, Sink,
    Source, StdSink, StdSource, SureFiles, SureSink, SureSource,
};

/// Takes pieces into a buffer of four bytes, and compares them.
fn expect_pieces(rt: &impl Abort, source: &mut impl Source, want: &[Result<&[u8], Failed>]) {
    for piece in want {
        let mut buffer = [0; 4];
        match source.take(&mut buffer) {
            Ok(count) => assert!(rt; Ok(&buffer[..count]) == *piece),
            Err(fault) => assert!(rt; Err(fault) == *piece),
        }
    }
}

/// Puts pieces, and compares the answers.
fn expect_puts(
    rt: &impl Abort,
    alloc: Global,
    sink: &mut impl Sink,
    pieces: &[(&[u8], Result<(), PutFault>)],
) {
    for (piece, want) in pieces {
        assert!(rt; sink.put(alloc, piece) == *want);
    }
}

/// A path, and what is fetched of at most five bytes.
type Fetch<'a> = (&'a str, Result<Fetched, FetchFault>, &'a [u8]);

/// Fetches files, each into an empty buffer, and compares the answers and the buffers.
fn expect_fetches(rt: &impl Abort, alloc: Global, files: &mut impl Files, rows: &[Fetch]) {
    for (path, want, bytes) in rows {
        let mut into = Vec::new(alloc);
        let fetched = files.fetch(alloc, path, 5, &mut into);
        assert!(rt; fetched == *want, "at {path:?}");
        assert!(rt; into.as_slice() == *bytes, "at {path:?}");
    }
}

/// Pieces of `abcdefgh`, in the planned sizes, of which a take fails.
const PIECES: [Result<&[u8], Failed>; 6] = [
    Ok(b"a"),
    Err(Failed),
    Ok(b"bc"),
    Ok(b"defg"),
    Ok(b"h"),
    Ok(b""),
];

const SURE_PIECES: [Result<&[u8], Failed>; 3] = [Ok(b"abcd"), Ok(b"e"), Ok(b"")];

#[test]
fn sources_in_memory_give_the_planned_sizes_and_faults(rt: HostRuntime) -> Result<(), Fail> {
    let mut source = MemSource::new(rt.alloc(), b"abcdefgh", &[0, 2, 9], &[2])?;
    expect_pieces(&rt, &mut source, &PIECES);
    let mut source = SureSource::new(rt.alloc(), b"abcde")?;
    expect_pieces(&rt, &mut source, &SURE_PIECES);
    Ok(())
}

const PUTS: [(&[u8], Result<(), PutFault>); 3] = [
    (b"ab", Ok(())),
    (b"cd", Err(PutFault::Failed)),
    (b"e", Ok(())),
];

const SURE_PUTS: [(&[u8], Result<(), PutFault>); 2] = [(b"ab", Ok(())), (b"e", Ok(()))];

#[test]
fn sinks_in_memory_keep_all_but_what_fails_as_planned(rt: HostRuntime) -> Result<(), Fail> {
    let mut sink = MemSink::new(rt.alloc(), &[2])?;
    expect_puts(&rt, rt.alloc(), &mut sink, &PUTS);
    assert!(rt; sink.bytes() == b"abe".as_slice());
    let mut sink = SureSink::new(rt.alloc());
    expect_puts(&rt, rt.alloc(), &mut sink, &SURE_PUTS);
    assert!(rt; sink.bytes() == b"abe".as_slice());
    Ok(())
}

/// The first fetch fails.
const FETCHES: [Fetch; 2] = [
    ("a", Err(FetchFault::Failed), b""),
    ("a", Ok(Fetched::Whole), b"new"),
];

const SURE_FETCHES: [Fetch; 3] = [
    ("five", Ok(Fetched::Whole), b"12345"),
    ("six", Ok(Fetched::TooLong), b""),
    ("none", Ok(Fetched::Absent), b""),
];

#[test]
fn files_in_memory_are_fetched_or_fail_as_planned(rt: HostRuntime) -> Result<(), Fail> {
    let alloc = rt.alloc();
    let mut files = MemFiles::new(alloc, &[1])?;
    files.add(alloc, "a", b"old")?;
    files.add(alloc, "a", b"new")?;
    expect_fetches(&rt, alloc, &mut files, &FETCHES);
    let mut files = SureFiles::new(alloc);
    files.add(alloc, "five", b"12345")?;
    files.add(alloc, "six", b"123456")?;
    expect_fetches(&rt, alloc, &mut files, &SURE_FETCHES);
    Ok(())
}

const REAL_FETCHES: [Fetch; 7] = [
    ("uvl_outside_five", Ok(Fetched::Whole), b"12345"),
    ("uvl_outside_six", Ok(Fetched::TooLong), b""),
    ("uvl_outside_none", Ok(Fetched::Absent), b""),
    ("uvl_outside_five/below", Ok(Fetched::Absent), b""),
    ("a\0b", Ok(Fetched::Absent), b""),
    ("", Ok(Fetched::Absent), b""),
    (".", Err(FetchFault::Failed), b""),
];

#[test]
fn real_files_are_fetched(rt: HostRuntime) -> Result<(), Fail> {
    let alloc = rt.alloc();
    fs::write(&rt, "uvl_outside_five", "12345")?;
    fs::write(&rt, "uvl_outside_six", "123456")?;
    let mut files = HostFiles::new(rt);
    expect_fetches(&rt, alloc, &mut files, &REAL_FETCHES);
    // paths that are too long, for a name and at all
    let long = joined(alloc, &[("x", 300)])?;
    let longer = joined(alloc, &[("x", 5000)])?;
    expect_fetches(
        &rt,
        alloc,
        &mut files,
        &[(long.as_str(), Ok(Fetched::Absent), b"")],
    );
    expect_fetches(
        &rt,
        alloc,
        &mut files,
        &[(longer.as_str(), Ok(Fetched::Absent), b"")],
    );
    fs::remove_file(&rt, "uvl_outside_five")?;
    fs::remove_file(&rt, "uvl_outside_six")?;
    Ok(())
}

#[test]
fn real_streams_are_read_and_written_and_their_faults_answered(
    rt: HostRuntime,
) -> Result<(), Fail> {
    let (reader, writer) = io::pipe(&rt)?;
    let mut source = StdSource::new(reader);
    let mut sink = StdSink::new(BufWriter::new(rt.alloc(), writer)?);
    expect_puts(&rt, rt.alloc(), &mut sink, &[(b"abcde", Ok(()))]);
    expect_pieces(&rt, &mut source, &[Ok(b"abcd"), Ok(b"e")]);
    drop(sink);
    expect_pieces(&rt, &mut source, &[Ok(b"")]);
    let mut full = StdSink::new(OpenOptions::new().write(true).open(&rt, "/dev/full")?);
    expect_puts(&rt, rt.alloc(), &mut full, &[(b"a", Err(PutFault::Failed))]);
    let mut folder = StdSource::new(fs::open(&rt, ".")?);
    expect_pieces(&rt, &mut folder, &[Err(Failed)]);
    Ok(())
}
