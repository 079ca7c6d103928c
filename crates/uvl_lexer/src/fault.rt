//! Why a text has no tokens.
use std::alloc::AllocError;
use thiserror::Error;
use uvl_base::{FaultKind, Place};

/// Why a text has no tokens.
#[derive(Clone, Copy, Debug, PartialEq, Eq, Error)]
pub enum LexFault {
    /// The first place at which the text can't be read on, and what is wrong there.
    #[error("the text can't be read on")]
    At { place: Place, kind: FaultKind },
    #[error("out of memory")]
    OutOfMemory,
}

impl From<AllocError> for LexFault {
    ghost use Rattle.std.specs.Prelude.{◌≡◌};
    ghost use Rattle.uvl_lexer.specs.declared.fault.LexFault.TheVariants.{OutOfMemory};

    ghost from_gives = { λ _ e. e ≡ OutOfMemory };

    fn from(_: AllocError) -> LexFault {
        LexFault::OutOfMemory
    }
}
