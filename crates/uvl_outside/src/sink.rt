//! A sink for bytes, which takes them piece by piece.
ghost use Rattle.std.specs.Prelude.{◌≡◌, ℕ, List, Option};
ghost use Rattle.uvl_outside.specs.Faults.{Counts};
ghost use Rattle.uvl_outside.specs.Sink.{Puts, put_failed};
ghost use Rattle.uvl_outside.specs.declared.sink.PutFault.TheVariants.{OutOfMemory as Starved};

use std::alloc::{AllocError, Global};
use thiserror::Error;

/// Why a piece was not written whole.
#[derive(Clone, Copy, Debug, PartialEq, Eq, Error)]
pub enum PutFault {
    /// The host failed, which is counted.
    #[error("the output could not be written")]
    Failed,
    /// Memory is wanting, which is not counted.
    #[error("out of memory")]
    OutOfMemory,
}

impl From<AllocError> for PutFault {
    ghost from_gives = { λ _ fault. fault ≡ Starved };

    fn from(_error: AllocError) -> PutFault {
        PutFault::OutOfMemory
    }
}

/// What takes bytes.
pub trait Sink {
    /// The bytes that were written, where the object tells them.
    ghost written: { Self → Option (List ℕ) };

    /// How many faults it has answered.
    ghost faults: { Self → ℕ };

    /// Writes the piece behind what was written before. After a fault some front of it was written.
    fn put(&mut self, alloc: Global, piece: &[u8]) -> Result<(), PutFault>
        ensures appends { Puts (written self.old) (written self.new) piece.now result }
        ensures counted { Counts (faults self.old) (faults self.new) (put_failed result) };
}
