//! Why a set of files is not accepted.
use uvl_base::{FaultKind, ModelFault, OutOfMemory, Place};

/// Why a set of files is not accepted.
#[derive(Debug, Drop)]
pub enum ScopeFault {
    /// A file has a fault.
    Model(ModelFault),
    OutOfMemory,
}

impl From<OutOfMemory> for ScopeFault {
    ghost use Rattle.std.specs.Prelude.{◌≡◌};
    ghost use Rattle.uvl_scope.specs.declared.fault.ScopeFault.TheVariants.{OutOfMemory};

    ghost from_gives = { λ _ fault. fault ≡ OutOfMemory };

    fn from(_: OutOfMemory) -> ScopeFault {
        ScopeFault::OutOfMemory
    }
}

/// What is wrong in a file, and where.
#[derive(Clone, Copy, Debug, PartialEq, Eq)]
pub(crate) struct Finding {
    pub(crate) place: Place,
    pub(crate) kind: FaultKind,
}

/// Why a file is not accepted.
#[derive(Clone, Copy, Debug, PartialEq, Eq)]
pub(crate) enum FileFault {
    /// Something is wrong at a place of the file.
    At { place: Place, kind: FaultKind },
    OutOfMemory,
}

impl From<OutOfMemory> for FileFault {
    ghost use Rattle.std.specs.Prelude.{◌≡◌};
    ghost use Rattle.uvl_scope.specs.declared.fault.FileFault.TheVariants.{OutOfMemory};

    ghost from_gives = { λ _ fault. fault ≡ OutOfMemory };

    fn from(_: OutOfMemory) -> FileFault {
        FileFault::OutOfMemory
    }
}
