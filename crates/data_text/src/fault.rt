ghost use Rattle.std.specs.Prelude.{◌≡◌};
ghost use Rattle.data_text.specs.declared.fault.ValueFault.TheVariants.{Memory};

use std::alloc::AllocError;
use thiserror::Error;

/// Why a text is not the data that is due: its first fault, by its line. Lines count from 1.
#[derive(Debug, Drop, Error)]
pub enum ValueFault {
    /// The token is not the word or the number that is due, or is left over, or is due and missing.
    #[error("syntax")]
    Syntax(u64),
    /// The number is not in its range.
    #[error("out of range")]
    OutOfRange(u64),
    #[error("out of memory")]
    Memory(AllocError),
}

impl From<AllocError> for ValueFault {
    ghost from_gives = { λ error fault. fault ≡ Memory error };

    fn from(error: AllocError) -> ValueFault {
        ValueFault::Memory(error)
    }
}
