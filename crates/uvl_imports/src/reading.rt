//! The reading of one file: its bytes, their text, its tokens and its syntax.
ghost use Rattle.std.specs.Prelude.{◌≡◌, ◌≤◌, ℕ, List, length, IfOk, IfErr, IfSome};
ghost use Rattle.uvl_base.specs.Limits.{most_file_bytes};
ghost use Rattle.uvl_outside.specs.Faults.{Counts};
ghost use Rattle.uvl_imports.specs.Reading.{Reading, ReadsEach, IsFileOf};
ghost use Rattle.uvl_imports.specs.Sets.{IsWritten};
ghost use Rattle.uvl_imports.specs.steps.Answers.{IsContentRead, IsFaultIn, reading_failed};

use crate::fault::ReadingFault;
use crate::law::all_bytes_are_read_once;
use std::alloc::Global;
use uvl_ast::File;
use uvl_base::FaultKind;
use uvl_lexer::lex;
use uvl_outside::{FetchFault, Fetched, Files};
use uvl_parser::parse;

/// The file at `path`, where it has at most `limit` bytes, and how many it has.
pub(crate) fn read_file<F: Files>(
    alloc: Global,
    files: &mut F,
    path: &str,
    limit: usize,
) -> Result<(File, usize), ReadingFault>
    requires { limit ≤ most_file_bytes }
    ensures read { IfSome (F.told files.old) (λ contents. (read : List ℕ → Reading) → ReadsEach read →
        IsContentRead read limit (contents path.now) result) }
    ensures within { IfOk result (λ pair. pair.1 ≤ limit) }
    ensures written { IfOk result (λ pair. IsWritten pair.0) }
    ensures same { F.told files.new ≡ F.told files.old }
    ensures counted { Counts (F.faults files.old) (F.faults files.new) (reading_failed result) }
{
    // A law, which is a fact for the proof.
    all_bytes_are_read_once();
    let mut bytes = Vec::new(alloc);
    match files.fetch(alloc, path, limit, &mut bytes) {
        Ok(Fetched::Whole) => sized_file_in(alloc, &bytes),
        Ok(Fetched::Absent) => Err(ReadingFault::of_whole_file(FaultKind::Absent)),
        Ok(Fetched::TooLong) => Err(ReadingFault::of_whole_file(FaultKind::TooLong)),
        Err(FetchFault::Failed) => Err(ReadingFault::Host),
        Err(FetchFault::OutOfMemory) => Err(ReadingFault::OutOfMemory),
    }
}

/// The file that bytes say, and how many bytes these are.
fn sized_file_in(alloc: Global, bytes: &[u8]) -> Result<(File, usize), ReadingFault>
    requires { length bytes.now ≤ most_file_bytes }
    ensures file { IfOk result (λ pair. IsFileOf bytes.now pair.0) }
    ensures size { IfOk result (λ pair. pair.1 ≡ length bytes.now) }
    ensures written { IfOk result (λ pair. IsWritten pair.0) }
    ensures fault { IfErr result (IsFaultIn bytes.now) }
{
    let file = file_in(alloc, bytes)?;
    Ok((file, bytes.len()))
}

/// The file that bytes say.
fn file_in(alloc: Global, bytes: &[u8]) -> Result<File, ReadingFault>
    requires { length bytes.now ≤ most_file_bytes }
    ensures file { IfOk result (IsFileOf bytes.now) }
    ensures written { IfOk result IsWritten }
    ensures fault { IfErr result (IsFaultIn bytes.now) }
{
    let Ok(text) = str::from_utf8(bytes) else {
        return Err(ReadingFault::of_whole_file(FaultKind::NotUtf8));
    };
    let tokens = lex(alloc, text)?;
    Ok(parse(alloc, &tokens)?)
}
