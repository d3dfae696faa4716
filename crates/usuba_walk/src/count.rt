ghost use Rattle.std.specs.Prelude.{◌≡◌, ◌+◌, ◌≤◌, [], ◌∷◌, Some, None, IfOk};
ghost use Rattle.usuba_model.specs.Walk.{walk_fault};
ghost use Rattle.usuba_walk.specs.State.Progress.{IfFault};

use crate::stop::Stop;
use tor_edge::Place;
use usuba_model::{Fault, FaultKind};

/// The most operations that a count may reach.
pub const MOST_OPERATIONS: u32 = 4_194_304;

/// The count after one step: the step's own fault comes first, then that the count passes its limit.
pub fn counted(count: u32, place: Place, adds: u64, fault: Option<FaultKind>) -> Result<u32, Stop>
    requires { count ≤ 4194304 }
    ensures clean { IfOk result
        (λ after. walk_fault count (record { place = place; adds = adds; fault = fault } ∷ []) ≡ None) }
    ensures added { IfOk result (λ after. after ≡ count + adds) }
    ensures within { IfOk result (λ after. after ≤ 4194304) }
    ensures stops { IfFault result
        (λ found. walk_fault count (record { place = place; adds = adds; fault = fault } ∷ []) ≡ Some found) }
{
    match fault {
        Some(kind) => Err(Stop::Fault(Fault { kind, place })),
        None => counted_clean(count, place, adds),
    }
}

fn counted_clean(count: u32, place: Place, adds: u64) -> Result<u32, Stop>
    requires { count ≤ 4194304 }
    ensures clean { IfOk result
        (λ after. walk_fault count (record { place = place; adds = adds; fault = None } ∷ []) ≡ None) }
    ensures added { IfOk result (λ after. after ≡ count + adds) }
    ensures within { IfOk result (λ after. after ≤ 4194304) }
    ensures stops { IfFault result
        (λ found. walk_fault count (record { place = place; adds = adds; fault = None } ∷ []) ≡ Some found) }
{
    if adds > u64::from(MOST_OPERATIONS - count) {
        return Err(Stop::Fault(Fault {
            kind: FaultKind::TooManyOps,
            place,
        }));
    }
    Ok(count + adds as u32)
}
