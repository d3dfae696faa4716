ghost use Rattle.core_text.specs.Parts.{IsMemory};

use std::alloc::{AllocError, AllocFailed};
use thiserror::Error;

/// Why bytes are no core: the fault of the first line that is wrong, by its number, and else that the core does not fit. At one line
/// wrong syntax comes first.
#[derive(Debug, Drop, Error)]
pub enum CoreFault {
    /// The line is not of a form that is due there, or is due and missing, or is left over.
    #[error("syntax")]
    Syntax(u64),
    /// The line has its form, and holds a register that is not earlier, a left side that is not the next register, or a number out of its
    /// range.
    #[error("out of range")]
    OutOfRange(u64),
    /// Every line is right, and the core is past one of its limits.
    #[error("limit passed")]
    Limit,
    #[error("out of memory")]
    Memory(AllocError),
}

impl From<AllocError> for CoreFault {
    ghost from_gives = { λ _ fault. IsMemory fault };

    fn from(error: AllocError) -> Self {
        CoreFault::Memory(error)
    }
}

impl<T: Drop> From<AllocFailed<T>> for CoreFault {
    ghost from_gives = { λ _ fault. IsMemory fault };

    fn from(failed: AllocFailed<T>) -> Self {
        CoreFault::Memory(failed.into())
    }
}
