//! The first line of some bytes.
ghost use Rattle.std.specs.Prelude.{◌≡◌, false, MatchOption};
ghost use Rattle.uvl_lines.specs.Lines.{has_lf};
ghost use Rattle.uvl_lines.specs.steps.FirstLine.{BeginsWithLine};

use memchr::memchr;

/// The bytes in front of the first LF, and those behind it.
pub(crate) fn split_line(bytes: &[u8]) -> Option<(&[u8], &[u8])>
    ensures { MatchOption result (has_lf bytes.now ≡ false)
        (λ parts. BeginsWithLine bytes.now parts.0.now parts.1.now) }
{
    match memchr(b'\n', bytes) {
        None => None,
        Some(end) => Some((&bytes[..end], &bytes[end + 1..])),
    }
}
