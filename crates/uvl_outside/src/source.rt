//! A source of bytes, which gives them in pieces.
ghost use Rattle.std.specs.Prelude.{ℕ, ◌<◌, ◌≤◌, List, length, Option, IfOk, is_err};
ghost use Rattle.uvl_outside.specs.Faults.{Counts};
ghost use Rattle.uvl_outside.specs.Source.{Takes};

use thiserror::Error;

/// The host failed, which is counted.
#[derive(Clone, Copy, Debug, PartialEq, Eq, Error)]
#[error("the input could not be read")]
pub struct Failed;

/// What gives bytes.
pub trait Source {
    /// The bytes that it has left, where the object tells them.
    ghost left: { Self → Option (List ℕ) };

    /// How many faults it has answered.
    ghost faults: { Self → ℕ };

    /// Moves at least one and at most `into.len()` bytes from the front of what is left to the
    /// front of the buffer, and answers how many. It answers 0 exactly where nothing is left.
    fn take(&mut self, into: &mut [u8]) -> Result<usize, Failed>
        requires { 0 < length into.old }
        ensures within { IfOk result (λ count. count ≤ length into.new) }
        ensures moves { Takes (left self.old) (left self.new) into.new result }
        ensures counted { Counts (faults self.old) (faults self.new) (is_err result) };
}
