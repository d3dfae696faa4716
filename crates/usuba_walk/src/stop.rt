ghost use Rattle.std.specs.Prelude.{◌≡◌};
ghost use Rattle.usuba_walk.specs.declared.stop.Stop.TheVariants.{Memory};

use std::alloc::AllocError;
use usuba_model::Fault;

/// Why a walk stops before its end.
#[derive(Drop)]
pub enum Stop {
    Fault(Fault),
    Memory(AllocError),
}

impl From<AllocError> for Stop {
    ghost from_gives = { λ error stop. stop ≡ Memory error };

    fn from(error: AllocError) -> Stop {
        Stop::Memory(error)
    }
}
