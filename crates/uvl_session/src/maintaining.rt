//! Steps of maintenance.
ghost use Rattle.std.specs.Prelude.{◌≡◌, Ok};
ghost use Rattle.dd_store.specs.Changes.{Keeps, IsCollected};
ghost use Rattle.uvl_session.specs.Desk.{IsSound};

use crate::desk::Desk;
use crate::refusal::DeskRefusal;

/// A step of maintenance, which changes no model, no session and no value of a handle.
#[derive(Clone, Copy, Debug, PartialEq, Eq)]
pub enum Step {
    /// Frees the nodes that no handle reaches.
    Collect,
    /// Forgets the results of operations.
    Forget,
}

/// What came of a step.
#[derive(Clone, Copy, Debug, PartialEq, Eq)]
pub enum Maintained {
    Done,
}

impl Desk {
    /// Takes a step of maintenance. It takes no memory.
    pub fn maintain(&mut self, step: Step) -> Result<Maintained, DeskRefusal>
        requires { IsSound self.old }
        ensures sound { IsSound self.new }
        ensures done { result ≡ Ok Maintained.Done }
        ensures collected { step ≡ Step.Collect → IsCollected self.old.kernel self.new.kernel }
        ensures forgotten { step ≡ Step.Forget → self.new.kernel ≡ self.old.kernel }
        ensures sessions { self.new.sessions ≡ self.old.sessions }
        ensures main { self.new.main ≡ self.old.main }
        ensures names { self.new.names ≡ self.old.names }
        ensures keeps { Keeps self.old.kernel self.new.kernel }
    {
        // The table is sound also where nothing is done.
        self.kernel.order();
        match step {
            Step::Collect => {
                self.kernel.collect();
            }
            Step::Forget => self.kernel.clear_cache(),
        }
        Ok(Maintained::Done)
    }
}
