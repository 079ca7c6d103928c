//! How the answering of a script ends.
ghost use Rattle.std.specs.Prelude.{◌≡◌};
ghost use Rattle.uvl_lines.specs.Endings.{ending_of_put, ending_of_answer};
ghost use Rattle.uvl_lines.specs.declared.ending.Ending.TheVariants.{NoMemory as Starved};

use crate::AnswerFault;
use std::alloc::AllocError;
use uvl_outside::PutFault;

/// How the answering of a script ends.
#[derive(Clone, Copy, Debug, PartialEq, Eq)]
pub enum Ending {
    /// The input was read to its end, and each line has its reply.
    Done,
    /// The script has more bytes than it may have. The lines that end within these have their replies.
    TooMuch,
    /// The host failed while the input was read. The lines that had ended have their replies.
    InputFailed,
    /// The host failed while a line fetched a file. The lines in front of it have their replies, and
    /// nothing is written of its own.
    FetchFailed,
    /// The host failed while a reply was written: whole replies are, and perhaps a front of the next.
    WriteFailed,
    /// Memory is wanting. Whole replies are written, and perhaps a front of the next.
    NoMemory,
}

impl From<PutFault> for Ending {
    ghost from_gives = { λ fault ending. ending ≡ ending_of_put fault };

    fn from(fault: PutFault) -> Ending {
        match fault {
            PutFault::Failed => Ending::WriteFailed,
            PutFault::OutOfMemory => Ending::NoMemory,
        }
    }
}

impl From<AnswerFault> for Ending {
    ghost from_gives = { λ fault ending. ending ≡ ending_of_answer fault };

    fn from(fault: AnswerFault) -> Ending {
        match fault {
            AnswerFault::FetchFailed => Ending::FetchFailed,
            AnswerFault::OutOfMemory => Ending::NoMemory,
        }
    }
}

impl From<AllocError> for Ending {
    ghost from_gives = { λ _ ending. ending ≡ Starved };

    fn from(_error: AllocError) -> Ending {
        Ending::NoMemory
    }
}
