ghost use Rattle.std.specs.Prelude.{◌≡◌};
ghost use Rattle.c_names.specs.declared.fault.NameFault.TheVariants.{Memory};

use std::alloc::{AllocError, AllocFailed};
use thiserror::Error;
use tor_edge::Place;

/// Why the names of a file are not in order.
#[derive(Debug, Drop, Error)]
pub enum NameFault {
    /// The first name that is not right where it stands.
    #[error("bad name")]
    BadName(Place),
    #[error("out of memory")]
    Memory(AllocError),
}

impl From<AllocError> for NameFault {
    ghost from_gives = { λ error fault. fault ≡ Memory error };

    fn from(error: AllocError) -> NameFault {
        NameFault::Memory(error)
    }
}
