//! What the calls of a store answer where they refuse.
ghost use Rattle.dd_store.specs.declared.refusal.Refusal.TheVariants.{OutOfMemory as node_memory};
ghost use Rattle.dd_store.specs.declared.refusal.AddRefusal.TheVariants.{OutOfMemory as add_memory};
ghost use Rattle.std.specs.Prelude.{◌≡◌};

use std::alloc::{AllocError, AllocFailed};

/// Memory is wanting. It is the only answer that has no cause in a contract.
pub type OutOfMemory = AllocError;

/// Why a call that makes nodes refuses.
#[derive(Clone, Copy, Debug, PartialEq, Eq)]
pub enum Refusal {
    /// The table is full: it holds `nodes` nodes, which is its budget, beside `roots` live handles.
    OverBudget { nodes: u32, roots: u32 },
    /// Memory is wanting.
    OutOfMemory,
}

impl From<AllocError> for Refusal {
    ghost from_gives = { λ _ refusal. refusal ≡ node_memory };

    fn from(_error: AllocError) -> Refusal {
        Refusal::OutOfMemory
    }
}

impl<T: Drop> From<AllocFailed<T>> for Refusal {
    ghost from_gives = { λ _ refusal. refusal ≡ node_memory };

    fn from(_error: AllocFailed<T>) -> Refusal {
        Refusal::OutOfMemory
    }
}

/// Why a variable isn't added.
#[derive(Clone, Copy, Debug, PartialEq, Eq)]
pub enum AddRefusal {
    /// There are as many variables as a table may have, `MAX_VARIABLES`.
    TooManyVariables,
    /// Memory is wanting.
    OutOfMemory,
}

impl<T: Drop> From<AllocFailed<T>> for AddRefusal {
    ghost from_gives = { λ _ refusal. refusal ≡ add_memory };

    fn from(_error: AllocFailed<T>) -> AddRefusal {
        AddRefusal::OutOfMemory
    }
}

impl From<AllocError> for AddRefusal {
    ghost from_gives = { λ _ refusal. refusal ≡ add_memory };

    fn from(_error: AllocError) -> AddRefusal {
        AddRefusal::OutOfMemory
    }
}
