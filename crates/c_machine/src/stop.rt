ghost use Rattle.std.specs.Prelude.{◌≡◌};
ghost use Rattle.c_machine.specs.declared.stop.Stop.TheVariants as stop_variants;
ghost use Rattle.c_machine.specs.declared.stop.RunFault.TheVariants as fault_variants;

use std::alloc::AllocError;
use thiserror::Error;

/// What stops a run inside a call.
#[derive(Clone, Copy, Debug, Drop)]
pub enum Trap {
    /// An array's index is at or past the count of shares, or a row is past its array's count.
    IndexOut,
    /// A shift is by 64 or more.
    BadShift,
    /// A draw finds no random word.
    WordsShort,
}

/// What stops a statement.
#[derive(Debug, Drop)]
pub enum Stop {
    Trap(Trap),
    Memory(AllocError),
}

/// Why a run is refused. The number is that of the call of `masked` that meets it, from 0.
#[derive(Debug, Drop, Error)]
pub enum RunFault {
    #[error("index out of range")]
    IndexOut(u64),
    #[error("bad shift")]
    BadShift(u64),
    #[error("random words too few")]
    WordsShort,
    #[error("out of memory")]
    Memory(AllocError),
}

impl From<Trap> for Stop {
    ghost from_gives = { λ trap stop. stop ≡ stop_variants.Trap trap };

    fn from(trap: Trap) -> Self {
        Stop::Trap(trap)
    }
}

impl From<AllocError> for Stop {
    ghost from_gives = { λ error stop. stop ≡ stop_variants.Memory error };

    fn from(error: AllocError) -> Self {
        Stop::Memory(error)
    }
}

impl From<AllocError> for RunFault {
    ghost from_gives = { λ error fault. fault ≡ fault_variants.Memory error };

    fn from(error: AllocError) -> Self {
        RunFault::Memory(error)
    }
}
