//! Why a set of files has no model.
use uvl_base::{ModelFault, OutOfMemory};
use uvl_scope::ScopeFault;

/// Why a set of files has no model.
#[derive(Debug, Drop)]
pub enum ResolveFault {
    /// What is wrong first in the files, where it is met in resolution.
    Model(ModelFault),
    /// Nothing is wrong, and some rule speaks of numbers, which aren't built yet.
    NotBuilt,
    OutOfMemory,
}

impl From<OutOfMemory> for ResolveFault {
    ghost use Rattle.std.specs.Prelude.{◌≡◌};
    ghost use Rattle.uvl_resolve.specs.declared.fault.ResolveFault.TheVariants.{OutOfMemory};

    ghost from_gives = { λ _ fault. fault ≡ OutOfMemory };

    fn from(_: OutOfMemory) -> ResolveFault {
        ResolveFault::OutOfMemory
    }
}

impl From<ScopeFault> for ResolveFault {
    ghost use Rattle.std.specs.Prelude.{◌≡◌};
    ghost use Rattle.uvl_resolve.specs.Faults.{fault_of};

    ghost from_gives = { λ met fault. fault ≡ fault_of met };

    fn from(met: ScopeFault) -> ResolveFault {
        match met {
            ScopeFault::Model(fault) => ResolveFault::Model(fault),
            ScopeFault::OutOfMemory => ResolveFault::OutOfMemory,
        }
    }
}
