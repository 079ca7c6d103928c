//! Writing to a writer of the standard library, where an interrupted call is tried again.
ghost use Rattle.std.specs.Prelude.{◌≢◌, ◌≤◌, length, take, IfOk, IfErr, OnErr};
ghost use Rattle.std.specs.Io.KnownBytes.{Appends, Keeps};
ghost use Rattle.std.specs.IoError.{error_kind};
ghost use Rattle.uvl_outside.specs.Sink.{Puts};

use crate::reading::is_interrupted;
use std::io;
use std::io::{ErrorKind, Write};

/// One write of a front of the piece.
fn write_retrying<W: Write>(writer: &mut W, piece: &[u8]) -> io::Result<usize>
    ensures within { IfOk result (λ count. count ≤ length piece.now) }
    ensures appends { IfOk result (λ count.
        Appends (W.contents writer.old) (W.contents writer.new) (take count piece.now)) }
    ensures unchanged { OnErr result (Keeps (W.contents writer.old) (W.contents writer.new)) }
    ensures retried { IfErr result (λ error. error_kind error ≢ ErrorKind.Interrupted) }
{
    for _ in 0..u64::MAX {
        match writer.write(piece) {
            Ok(count) => return Ok(count),
            Err(error) => {
                if !is_interrupted(&error) {
                    return Err(error);
                }
            }
        }
    }
    Err(io::Error::from(ErrorKind::TimedOut))
}

/// Hands on the bytes that the writer keeps.
fn flush_retrying<W: Write>(writer: &mut W) -> io::Result<()>
    ensures keeps { Keeps (W.contents writer.old) (W.contents writer.new) }
    ensures retried { IfErr result (λ error. error_kind error ≢ ErrorKind.Interrupted) }
{
    for _ in 0..u64::MAX {
        match writer.flush() {
            Ok(()) => return Ok(()),
            Err(error) => {
                if !is_interrupted(&error) {
                    return Err(error);
                }
            }
        }
    }
    Err(io::Error::from(ErrorKind::TimedOut))
}

/// Writes the whole piece, and hands on what the writer keeps. A writer that takes nothing of bytes
/// that are left fails.
pub fn write_whole<W: Write>(writer: &mut W, piece: &[u8]) -> io::Result<()>
    ensures appends { Puts (W.contents writer.old) (W.contents writer.new) piece.now result }
    ensures retried { IfErr result (λ error. error_kind error ≢ ErrorKind.Interrupted) }
{
    let mut done = 0;
    while done < piece.len() {
        let count = write_retrying(writer, &piece[done..])?;
        if count == 0 {
            return Err(io::Error::from(ErrorKind::WriteZero));
        }
        done += count;
    }
    flush_retrying(writer)
}
