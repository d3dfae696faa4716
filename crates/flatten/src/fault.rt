ghost use Rattle.std.specs.Prelude.{◌≡◌};
ghost use Rattle.flatten.specs.CoreOf.{flat_fault_of};
ghost use Rattle.flatten.specs.declared.fault.FlatFault.TheVariants.{Memory};

use std::alloc::AllocError;
use thiserror::Error;
use usuba0::CloseFault;

/// Why a judged source has no core within the limits.
#[derive(Debug, Drop, Error)]
pub enum FlatFault {
    #[error("the core has too many equations for its width")]
    CoreTooLarge,
    #[error("the core has too many columns")]
    ColumnsTooMany,
    #[error("out of memory")]
    Memory(AllocError),
}

impl From<AllocError> for FlatFault {
    ghost from_gives = { λ error fault. fault ≡ Memory error };

    fn from(error: AllocError) -> Self {
        FlatFault::Memory(error)
    }
}

impl From<CloseFault> for FlatFault {
    ghost from_gives = { λ error fault. fault ≡ flat_fault_of error };

    fn from(error: CloseFault) -> Self {
        match error {
            CloseFault::CoreTooLarge => FlatFault::CoreTooLarge,
            CloseFault::ColumnsTooMany => FlatFault::ColumnsTooMany,
            CloseFault::Memory(error) => FlatFault::Memory(error),
        }
    }
}
