ghost use Rattle.std.specs.Prelude.{◌≡◌, ◌<◌, ◌^◌, nat_le};
ghost use Rattle.usuba_model.specs.Faults.{when as when_holds, first_kind};
ghost use Rattle.usuba_model.specs.Unrolled.{natural as natural_of};
ghost use Rattle.usuba_model.specs.Walk.{computing_fault as fault_of, is_beyond as is_past};
ghost use Rattle.usuba_cells.specs.Counters.{computed_of};

use usuba_cells::Computed;
use usuba_model::FaultKind;

/// A kind of fault where its condition holds.
pub fn when(holds: bool, kind: FaultKind) -> Option<FaultKind>
    ensures { result ≡ when_holds holds kind }
{
    if holds { Some(kind) } else { None }
}

/// The first of two kinds of fault each of which may be there.
pub fn first(earlier: Option<FaultKind>, later: Option<FaultKind>) -> Option<FaultKind>
    ensures { result ≡ first_kind earlier later }
{
    match earlier {
        Some(kind) => Some(kind),
        None => later,
    }
}

/// What a computed index has at fault, whatever it is for.
pub fn computing_fault(computed: &Computed) -> Option<FaultKind>
    ensures { result ≡ fault_of (computed_of computed.now) }
{
    first(
        when(computed.divided_by_zero, FaultKind::ZeroDivisor),
        when(computed.too_big, FaultKind::IndexOut),
    )
}

/// Whether a whole number is below 0 or at or above a bound.
pub fn is_beyond(bound: u32, value: Option<i64>) -> bool
    ensures { result ≡ is_past bound value }
{
    match value {
        Some(value) => value < 0 || value >= i64::from(bound),
        None => false,
    }
}

/// A whole number as an amount, 0 where it is negative or there is none.
pub fn natural(value: Option<i64>) -> u32
    ensures { natural_of value < 4294967296 → result ≡ natural_of value }
{
    match value {
        Some(value) => u32::try_from(value).unwrap_or(0),
        None => 0,
    }
}

/// Whether a number does not fit the width.
pub fn is_too_big(width: u32, value: u64) -> bool
    ensures { result ≡ nat_le (2 ^ width) value }
{
    width < 64 && value >= 1 << width
}
