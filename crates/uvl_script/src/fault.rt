//! Why a line of a script is refused.
ghost use Rattle.std.specs.Prelude.{◌≡◌, option_map};
ghost use Rattle.uvl_script.specs.Faults.{word_of};

use std::alloc::AllocError;
use thiserror::Error;

/// Why a line cannot be cut into words.
#[derive(Clone, Copy, Debug, PartialEq, Eq, Error)]
pub enum WordFault {
    /// The bytes of the line are not UTF-8.
    #[error("the line is not UTF-8")]
    BadUtf8,
    /// A quoted word is not closed, or no separator follows it, or a word is no name.
    #[error("a word of the line is no name")]
    BadName,
    #[error("out of memory")]
    OutOfMemory,
}

impl From<AllocError> for WordFault {
    ghost use Rattle.std.specs.Prelude.{◌≡◌};
    ghost use Rattle.uvl_script.specs.declared.fault.WordFault.TheVariants.{OutOfMemory};

    ghost from_gives = { λ _ e. e ≡ OutOfMemory };

    fn from(_: AllocError) -> WordFault {
        WordFault::OutOfMemory
    }
}

/// Why a line is no command. A line with several faults has the first of this list.
#[derive(Clone, Copy, Debug, PartialEq, Eq, Error)]
pub enum LineFault {
    /// The line has more than 65,536 bytes, its line end not counted.
    #[error("the line is too long")]
    TooLong,
    /// The bytes of the line are not UTF-8.
    #[error("the line is not UTF-8")]
    BadUtf8,
    /// A quoted word is not closed, or no separator follows it, or a word is no name.
    #[error("a word of the line is no name")]
    BadName,
    /// The first word is no command.
    #[error("there is no such command")]
    UnknownCommand,
    /// Too many words stand behind the command, or too few.
    #[error("the command takes another number of words")]
    WrongArity,
    #[error("out of memory")]
    OutOfMemory,
}

impl LineFault {
    /// The word that a refused line is answered with. Want of memory has none: it refuses no line.
    pub fn word(self) -> Option<&'static str>
        ensures { option_map (λ word. word.now) result ≡ word_of self }
    {
        match self {
            LineFault::TooLong => Some("too-long"),
            LineFault::BadUtf8 => Some("bad-utf8"),
            LineFault::BadName => Some("bad-name"),
            LineFault::UnknownCommand => Some("unknown-command"),
            LineFault::WrongArity => Some("wrong-arity"),
            LineFault::OutOfMemory => None,
        }
    }
}

impl From<AllocError> for LineFault {
    ghost use Rattle.std.specs.Prelude.{◌≡◌};
    ghost use Rattle.uvl_script.specs.declared.fault.LineFault.TheVariants.{OutOfMemory};

    ghost from_gives = { λ _ e. e ≡ OutOfMemory };

    fn from(_: AllocError) -> LineFault {
        LineFault::OutOfMemory
    }
}

impl From<WordFault> for LineFault {
    ghost use Rattle.std.specs.Prelude.{◌≡◌};
    ghost use Rattle.uvl_script.specs.Lines.{line_fault_of};

    ghost from_gives = { λ fault e. e ≡ line_fault_of fault };

    fn from(fault: WordFault) -> LineFault {
        match fault {
            WordFault::BadUtf8 => LineFault::BadUtf8,
            WordFault::BadName => LineFault::BadName,
            WordFault::OutOfMemory => LineFault::OutOfMemory,
        }
    }
}
