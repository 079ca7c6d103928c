//! What answers the commands of a script.
ghost use Rattle.std.specs.Prelude.{◌≡◌, ℕ, List, [], Option, IfErr, OnOk};
ghost use Rattle.uvl_outside.specs.Faults.{Counts};
ghost use Rattle.uvl_outside.specs.Files.{Contents};
ghost use Rattle.uvl_script.specs.declared.command.Command.{Command as CommandValue};
ghost use Rattle.uvl_lines.specs.Answers.{fetch_failed};
ghost use Rattle.uvl_lines.specs.declared.answerer.AnswerFault.TheVariants.{FetchFailed, OutOfMemory as Starved};

use std::alloc::{AllocError, Global};
use thiserror::Error;
use uvl_outside::Files;
use uvl_script::Command;

/// Why a command was not answered.
#[derive(Clone, Copy, Debug, PartialEq, Eq, Error)]
pub enum AnswerFault {
    /// The host failed while a file was fetched, which is counted.
    #[error("a file could not be read")]
    FetchFailed,
    /// Memory is wanting, which is not counted.
    #[error("out of memory")]
    OutOfMemory,
}

impl From<AllocError> for AnswerFault {
    ghost from_gives = { λ _ fault. fault ≡ Starved };

    fn from(_error: AllocError) -> AnswerFault {
        AnswerFault::OutOfMemory
    }
}

/// What answers the commands of a script, one after another, and keeps a state from one to the next.
pub trait Answerer {
    /// What a command may be answered: by what the files tell, the state in front of it, the command,
    /// the text of the reply and the state behind it.
    ghost replies: { Option Contents → Self → CommandValue → List ℕ → Self → Type 0 };

    /// The commands that fetch a file in some state.
    ghost fetches: { Self → CommandValue → Type 0 };

    /// Writes the reply to a command into an empty buffer, and goes on to the next state. A fault
    /// ends the script: after it nothing is known of the state.
    fn answer<F: Files>(
        &mut self,
        alloc: Global,
        files: &mut F,
        command: &Command,
        into: &mut Vec<u8>,
    ) -> Result<(), AnswerFault>
        requires { into.old.items ≡ [] }
        ensures replied { OnOk result (replies (F.told files.old) self.old command.now into.new.items self.new) }
        ensures fetching { IfErr result (λ fault. fault ≡ FetchFailed → fetches self.old command.now) }
        ensures same_files { F.told files.new ≡ F.told files.old }
        ensures counted { Counts (F.faults files.old) (F.faults files.new) (fetch_failed result) };
}
