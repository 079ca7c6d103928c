//! Why a call on a session is refused.
use dd_store::{OutOfMemory, Refusal};
use thiserror::Error;

/// Why a call on a session is refused.
#[derive(Clone, Copy, Debug, PartialEq, Eq, Error)]
pub enum DeskRefusal {
    #[error("no session has this name")]
    UnknownSession,
    #[error("a session has this name")]
    SessionThere,
    #[error("too many sessions are open")]
    TooManySessions,
    #[error("no feature has this name")]
    UnknownFeature,
    #[error("the model has no product")]
    VoidModel,
    #[error("the feature has a decision of this stage")]
    Decided,
    #[error("the feature has no decision")]
    NotDecided,
    #[error("the feature has a decision of an earlier stage")]
    Closed,
    #[error("the decisions force the other value")]
    Conflict,
    #[error("{nodes} nodes are the budget, with {roots} handles and partial results")]
    OverBudget { nodes: u32, roots: u32 },
    #[error("out of memory")]
    OutOfMemory,
}

impl From<OutOfMemory> for DeskRefusal {
    ghost use Rattle.std.specs.Prelude.{◌≡◌};
    ghost use Rattle.uvl_session.specs.declared.refusal.DeskRefusal.TheVariants.{OutOfMemory};

    ghost from_gives = { λ _ e. e ≡ OutOfMemory };

    fn from(_: OutOfMemory) -> DeskRefusal {
        DeskRefusal::OutOfMemory
    }
}

impl From<Refusal> for DeskRefusal {
    ghost use Rattle.std.specs.Prelude.{◌≡◌};
    ghost use Rattle.uvl_session.specs.Answers.{refusal_of};

    ghost from_gives = { λ r e. e ≡ refusal_of r };

    fn from(refusal: Refusal) -> DeskRefusal {
        match refusal {
            Refusal::OverBudget { nodes, roots } => DeskRefusal::OverBudget { nodes, roots },
            Refusal::OutOfMemory => DeskRefusal::OutOfMemory,
        }
    }
}
