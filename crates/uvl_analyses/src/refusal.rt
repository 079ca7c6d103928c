//! Why an analysis has no answer.
use std::alloc::AllocError;
use thiserror::Error;

/// Why an analysis has no answer.
#[derive(Clone, Copy, Debug, PartialEq, Eq, Error)]
pub enum AnalysisRefusal {
    /// The model has no product, so that every feature would be dead and core.
    #[error("the model has no product")]
    VoidModel,
    #[error("out of memory")]
    OutOfMemory,
}

impl From<AllocError> for AnalysisRefusal {
    ghost use Rattle.std.specs.Prelude.{◌≡◌};
    ghost use Rattle.uvl_analyses.specs.declared.refusal.AnalysisRefusal.TheVariants.{OutOfMemory};

    ghost from_gives = { λ _ e. e ≡ OutOfMemory };

    fn from(_: AllocError) -> AnalysisRefusal {
        AnalysisRefusal::OutOfMemory
    }
}
