//! Why a set of files is not loaded.
ghost use Rattle.std.specs.Prelude.{◌≡◌};
ghost use Rattle.uvl_imports.specs.Reading.{first_place};

use uvl_base::{FaultKind, ModelFault, OutOfMemory, Place};
use uvl_lexer::LexFault;
use uvl_parser::ParseFault;

/// Why a set of files is not loaded.
#[derive(Debug, Drop)]
pub enum LoadFault {
    /// A file has a fault.
    Model(ModelFault),
    /// The host failed, which was counted.
    ReadFault,
    OutOfMemory,
}

impl From<OutOfMemory> for LoadFault {
    ghost use Rattle.std.specs.Prelude.{◌≡◌};
    ghost use Rattle.uvl_imports.specs.declared.fault.LoadFault.TheVariants.{OutOfMemory};

    ghost from_gives = { λ _ fault. fault ≡ OutOfMemory };

    fn from(_: OutOfMemory) -> LoadFault {
        LoadFault::OutOfMemory
    }
}

/// Why a file was not read.
#[derive(Clone, Copy, Debug, PartialEq, Eq)]
pub(crate) enum ReadingFault {
    /// The file has a fault.
    At { place: Place, kind: FaultKind },
    /// The host failed, which was counted.
    Host,
    OutOfMemory,
}

impl ReadingFault {
    /// A fault of a file as a whole stands at its first place.
    pub(crate) fn of_whole_file(kind: FaultKind) -> ReadingFault
        ensures { result ≡ ReadingFault.At first_place kind }
    {
        let place = Place { line: 1, column: 1 };
        ReadingFault::At { place, kind }
    }
}

impl From<LexFault> for ReadingFault {
    ghost use Rattle.std.specs.Prelude.{◌≡◌};
    ghost use Rattle.uvl_imports.specs.steps.Answers.{of_lexer};

    ghost from_gives = { λ fault reading_fault. reading_fault ≡ of_lexer fault };

    fn from(fault: LexFault) -> ReadingFault {
        match fault {
            LexFault::At { place, kind } => ReadingFault::At { place, kind },
            LexFault::OutOfMemory => ReadingFault::OutOfMemory,
        }
    }
}

impl From<ParseFault> for ReadingFault {
    ghost use Rattle.std.specs.Prelude.{◌≡◌};
    ghost use Rattle.uvl_imports.specs.steps.Answers.{of_parser};

    ghost from_gives = { λ fault reading_fault. reading_fault ≡ of_parser fault };

    fn from(fault: ParseFault) -> ReadingFault {
        match fault {
            ParseFault::At { place, kind } => ReadingFault::At { place, kind },
            ParseFault::OutOfMemory => ReadingFault::OutOfMemory,
        }
    }
}
