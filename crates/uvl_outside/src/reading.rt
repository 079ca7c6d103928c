//! Reading from a reader of the standard library, where an interrupted call is tried again.
ghost use Rattle.std.specs.Prelude.{◌≡◌, ◌≢◌, ◌↔◌, ◌+◌, ◌<◌, ◌≤◌, [], length, IfSome, IfOk, IfErr, OnOk, IsTrue};
ghost use Rattle.std.specs.Io.KnownBytes.{Consumes};
ghost use Rattle.std.specs.IoError.{error_kind};
ghost use Rattle.uvl_outside.specs.Reading.{ReadsWhole, ConsumesAtMost};
ghost use Rattle.uvl_outside.specs.Source.{Takes};

use crate::files::{FetchFault, Fetched};
use std::io;
use std::io::{ErrorKind, Read};

/// How many bytes one call asks for.
const PIECE: usize = 65536;

/// Whether a call was interrupted by a signal, and is to be tried again.
pub fn is_interrupted(error: &io::Error) -> bool
    ensures { IsTrue result ↔ (error_kind error.now ≡ ErrorKind.Interrupted) }
{
    error.kind() == ErrorKind::Interrupted
}

/// One read into a buffer that isn't empty.
pub fn read_retrying<R: Read>(reader: &mut R, into: &mut [u8]) -> io::Result<usize>
    requires { 0 < length into.old }
    ensures within { IfOk result (λ count. count ≤ length into.new) }
    ensures moves { Takes (R.remaining reader.old) (R.remaining reader.new) into.new result }
    ensures retried { IfErr result (λ error. error_kind error ≢ ErrorKind.Interrupted) }
{
    for _ in 0..u64::MAX {
        match reader.read(into) {
            Ok(count) => return Ok(count),
            Err(error) => {
                if !is_interrupted(&error) {
                    return Err(error);
                }
            }
        }
    }
    Err(io::Error::from(ErrorKind::TimedOut))
}

/// Reads to the end, or one byte past the limit where there are more, into an empty buffer.
fn read_past<R: Read>(reader: &mut R, limit: usize, into: &mut Vec<u8>) -> Result<(), FetchFault>
    requires { into.old.items ≡ [] }
    ensures within { length into.new.items ≤ limit + 1 }
    ensures taken { OnOk result
        (Consumes (R.remaining reader.old) (R.remaining reader.new) into.new.items) }
    ensures whole { OnOk result (length into.new.items ≤ limit
        → IfSome (R.remaining reader.old) (λ bytes. into.new.items ≡ bytes)) }
    ensures no_further { ConsumesAtMost (R.remaining reader.old) (R.remaining reader.new) (limit + 1) }
{
    let mut piece = [0; PIECE];
    while into.len() <= limit {
        let most = (limit - into.len()).saturating_add(1).min(PIECE);
        let count = read_retrying(reader, &mut piece[..most])?;
        if count == 0 {
            return Ok(());
        }
        into.extend_from_slice(&piece[..count])?;
    }
    Ok(())
}

/// Reads all that a reader has left, which is to be at most `limit` bytes, into an empty buffer. It
/// reads at most one byte past the limit.
pub fn read_whole<R: Read>(
    reader: &mut R,
    limit: usize,
    into: &mut Vec<u8>,
) -> Result<Fetched, FetchFault>
    requires { into.old.items ≡ [] }
    ensures whole { ReadsWhole (R.remaining reader.old) limit into.new.items result }
    ensures no_further { ConsumesAtMost (R.remaining reader.old) (R.remaining reader.new) (limit + 1) }
{
    let read = read_past(reader, limit, into);
    if read.is_ok() && into.len() <= limit {
        return Ok(Fetched::Whole);
    }
    into.clear();
    read?;
    Ok(Fetched::TooLong)
}
