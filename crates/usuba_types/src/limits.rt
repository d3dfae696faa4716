ghost use Rattle.std.specs.Prelude.{◌≡◌, ◌+◌, ◌*◌, ◌^◌, min};
ghost use Rattle.usuba_model.specs.Operations.{Size, size_fault as size_fault_of};
ghost use Rattle.usuba_types.specs.Sizes.{capped, greatest};

use crate::sizes::CappedSize;
use tor_edge::Place;
use usuba_model::{Fault, FaultKind};

/// The most operations that an entry may have.
const MOST_OPERATIONS: u64 = 4_194_304;

/// The calls of the longest chain that an entry may begin.
const LONGEST_CHAIN: u64 = 128;

// 2 to a power, or 2^64 - 1 where that is more.
fn power_of_two(exponent: u32) -> u64
    ensures { result ≡ min (2 ^ exponent) greatest }
{
    if exponent >= 64 {
        return u64::MAX;
    }
    1 << exponent
}

/// The size of a table of so many input and output elements.
pub fn size_of_table(inputs: u32, outputs: u32) -> CappedSize
    ensures { result ≡ capped (record { operations = 2 ^ inputs * (outputs + 1); chain = 0 }) }
{
    let values = power_of_two(inputs);
    CappedSize {
        operations: values.saturating_mul(u64::from(outputs) + 1),
        chain: 0,
    }
}

/// The size of a permutation of so many output elements.
pub fn size_of_permutation(outputs: u32) -> CappedSize
    ensures { result ≡ capped (record { operations = outputs; chain = 0 }) }
{
    CappedSize {
        operations: u64::from(outputs),
        chain: 0,
    }
}

/// What is too large about an entry of this size, whose name stands at this place.
pub fn size_fault(place: Place, size: CappedSize) -> Option<Fault>
    ensures { (whole : Size) → size ≡ capped whole → result ≡ size_fault_of place whole }
{
    if size.operations > MOST_OPERATIONS {
        Some(Fault {
            kind: FaultKind::TooManyOps,
            place,
        })
    } else if size.chain > LONGEST_CHAIN {
        Some(Fault {
            kind: FaultKind::CallsTooDeep,
            place,
        })
    } else {
        None
    }
}
