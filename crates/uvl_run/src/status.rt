//! How a run of the program ends.
ghost use Rattle.std.specs.Prelude.{◌≡◌};
ghost use Rattle.uvl_run.specs.Status.{number_of};

use uvl_lines::Ending;

/// How a run ends. The number is the exit status of the program.
#[derive(Clone, Copy, Debug, PartialEq, Eq)]
pub enum Status {
    /// The words were taken, the input was read to its end, and each line has its reply.
    Done,
    /// The words of the command line are refused. The usage line is written.
    Usage,
    /// The model has a fault. The fault line is written.
    Model,
    /// The host failed while the model or the script was read, or a file that a line of it asks for.
    ReadFault,
    /// The host failed while something was written. A front of the run's bytes is written.
    WriteFault,
    /// The budget of nodes is too small for the model. The line `refused budget` is written, and
    /// nothing is read from the input.
    OverBudget,
    /// Memory is wanting. The replies before it are written whole, and perhaps a front of the next.
    NoMemory,
    /// The script has more bytes than it may have. The lines that end within these have their replies.
    TooMuchInput,
}

impl Status {
    /// The exit status of the program.
    pub fn number(self) -> u8
        ensures { result ≡ number_of self }
    {
        match self {
            Status::Done => 0,
            Status::Usage => 2,
            Status::Model => 3,
            Status::ReadFault => 4,
            Status::WriteFault => 5,
            Status::OverBudget => 6,
            Status::NoMemory => 7,
            Status::TooMuchInput => 8,
        }
    }
}

/// What the ending of a script is to the run.
impl From<Ending> for Status {
    ghost use Rattle.std.specs.Prelude.{◌≡◌};
    ghost use Rattle.uvl_run.specs.Status.{outcome_of};

    ghost from_gives = { λ ending status. status ≡ (outcome_of ending).status };

    fn from(ending: Ending) -> Status {
        match ending {
            Ending::Done => Status::Done,
            Ending::TooMuch => Status::TooMuchInput,
            Ending::InputFailed | Ending::FetchFailed => Status::ReadFault,
            Ending::WriteFailed => Status::WriteFault,
            Ending::NoMemory => Status::NoMemory,
        }
    }
}
