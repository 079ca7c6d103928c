//! What the readers of the parser answer: a part and the tokens behind it.
use std::alloc::{AllocError, AllocFailed};

/// Why a reader answers no part.
#[derive(Debug, Drop)]
pub(crate) enum Stop {
    /// No part begins with the tokens up to and with the one at which so many tokens are left, that
    /// one with them.
    Stuck { left: usize },
    OutOfMemory,
}

impl From<AllocError> for Stop {
    ghost use Rattle.std.specs.Prelude.{◌≡◌};
    ghost use Rattle.uvl_parser.specs.declared.reading.Stop.TheVariants.{OutOfMemory};

    ghost from_gives = { λ _ e. e ≡ OutOfMemory };

    fn from(_: AllocError) -> Stop {
        Stop::OutOfMemory
    }
}

impl<T: Drop> From<AllocFailed<T>> for Stop {
    ghost use Rattle.std.specs.Prelude.{◌≡◌};
    ghost use Rattle.uvl_parser.specs.declared.reading.Stop.TheVariants.{OutOfMemory};

    ghost from_gives = { λ _ e. e ≡ OutOfMemory };

    fn from(_: AllocFailed<T>) -> Stop {
        Stop::OutOfMemory
    }
}
