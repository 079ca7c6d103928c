//! Files that are read whole, by path, up to a limit.
ghost use Rattle.std.specs.Prelude.{◌≡◌, ℕ, List, [], Option};
ghost use Rattle.uvl_outside.specs.Faults.{Counts};
ghost use Rattle.uvl_outside.specs.Files.{Fetches, fetch_failed};
ghost use Rattle.uvl_outside.specs.declared.files.FetchFault.TheVariants.{Failed as HostFailed, OutOfMemory as Starved};

use std::alloc::{AllocError, Global};
use std::io;
use thiserror::Error;

/// Memory is wanting.
pub type OutOfMemory = AllocError;

/// What became of a file that was asked for.
#[derive(Clone, Copy, Debug, PartialEq, Eq)]
pub enum Fetched {
    /// All its bytes were read.
    Whole,
    /// There is no file at the path.
    Absent,
    /// It has more bytes than the limit.
    TooLong,
}

/// Why a file was not fetched.
#[derive(Clone, Copy, Debug, PartialEq, Eq, Error)]
pub enum FetchFault {
    /// The host failed, which is counted.
    #[error("the file could not be read")]
    Failed,
    /// Memory is wanting, which is not counted.
    #[error("out of memory")]
    OutOfMemory,
}

impl From<AllocError> for FetchFault {
    ghost from_gives = { λ _ fault. fault ≡ Starved };

    fn from(_error: AllocError) -> FetchFault {
        FetchFault::OutOfMemory
    }
}

impl From<io::Error> for FetchFault {
    ghost from_gives = { λ _ fault. fault ≡ HostFailed };

    fn from(_error: io::Error) -> FetchFault {
        FetchFault::Failed
    }
}

/// A store of files.
pub trait Files {
    /// The bytes at each path, where the object tells them.
    ghost told: { Self → Option (List ℕ → Option (List ℕ)) };

    /// How many faults it has answered.
    ghost faults: { Self → ℕ };

    /// Reads the file at `path` into an empty buffer, where it has at most `limit` bytes. After any
    /// other answer than `Whole` the buffer is empty.
    fn fetch(
        &mut self,
        alloc: Global,
        path: &str,
        limit: usize,
        into: &mut Vec<u8>,
    ) -> Result<Fetched, FetchFault>
        requires { into.old.items ≡ [] }
        ensures fetched { Fetches (told self.old) path.now limit into.new.items result }
        ensures same { told self.new ≡ told self.old }
        ensures counted { Counts (faults self.old) (faults self.new) (fetch_failed result) };
}
