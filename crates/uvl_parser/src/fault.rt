//! Why tokens spell no file.
use std::alloc::AllocError;
use thiserror::Error;
use uvl_base::{FaultKind, Place};

/// Why tokens spell no file that is accepted.
#[derive(Clone, Copy, Debug, PartialEq, Eq, Error)]
pub enum ParseFault {
    /// The first token at which there is a fault, and what is wrong there.
    #[error("the tokens spell no file")]
    At { place: Place, kind: FaultKind },
    #[error("out of memory")]
    OutOfMemory,
}

impl From<AllocError> for ParseFault {
    ghost use Rattle.std.specs.Prelude.{◌≡◌};
    ghost use Rattle.uvl_parser.specs.declared.fault.ParseFault.TheVariants.{OutOfMemory};

    ghost from_gives = { λ _ e. e ≡ OutOfMemory };

    fn from(_: AllocError) -> ParseFault {
        ParseFault::OutOfMemory
    }
}
