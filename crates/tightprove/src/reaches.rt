ghost use Rattle.std.specs.Prelude.{◌≡◌, ◌<◌, ◌≤◌, ℕ, false, List, length, IfOk};
ghost use Rattle.span_model.specs.Attack.{Product};
ghost use Rattle.tightprove.specs.Private.Gathered.{marks_of, beyond, place_at, rows_in, HasNoLeak, IsGatheredOf, IsReady};
ghost use Rattle.tightprove.specs.Private.Bounds.{class_count};
ghost use Rattle.tightprove.specs.Private.Affine.{AreRests, IsClosedAt};

use crate::affine::{MOST_ROUNDS, take_rest};
use crate::gathered::{Gathered, Place};
use span_model::leaks_are_closed;
use std::alloc::{AllocError, Global};

// The rest by which a product is still to be taken: that of one operand, where the other has the rest of class i. 0 where
// there is nothing to take.
fn open_rest(rests: &[u64], i: usize, place: Place) -> u64
    requires i { i < length rests.now }
    requires left { place.left < length rests.now }
    requires right { place.right < length rests.now }
    ensures { result ≡ 0 → IsClosedAt rests.now i place }
{
    let row = rests[i];
    let left = rests[place.left];
    let right = rests[place.right];
    if left == row && right != 0 {
        return right;
    }
    if right == row { left } else { 0 }
}

// The first product outside of the set that is still to be taken; the number of products, where there is none.
fn first_open(gathered: &Gathered, rests: &[u64], set: &[bool], i: usize) -> usize
    requires ready { IsReady gathered.now }
    requires count { length rests.now ≡ class_count gathered.now }
    requires marks { length set.now ≡ length gathered.now.places.items }
    requires i { i < class_count gathered.now }
    ensures within { result ≤ length set.now }
    ensures closed { (k : ℕ) → k < result → marks_of set.now k ≡ false → IsClosedAt rests.now i (place_at gathered.now.places.items k) }
{
    for k in 0..set.len() {
        if !set[k] && open_rest(rests, i, gathered.places[k]) != 0 {
            return k;
        }
    }
    set.len()
}

// Up to which bound below `high` the rests tell that class i has no leak, where it has none up to `low`. The products are
// taken in turn, and their numbers noted.
fn reach_of_rests(
    gathered: &Gathered,
    rests: &mut [u64],
    set: &[bool],
    i: usize,
    low: usize,
    high: usize,
    taken: &mut Vec<usize>,
) -> Result<usize, AllocError>
    requires ready { IsReady gathered.now }
    requires rests { AreRests gathered.now.classes.list.items rests.old }
    requires marks { length set.now ≡ length gathered.now.places.items }
    requires i { i < class_count gathered.now }
    requires some { low < high }
    ensures within { IfOk result (λ b. (low ≤ b) × (b < high)) }
    ensures clean { IfOk result (λ b. (products : List (Product ℕ)) → IsGatheredOf products gathered.now
        → HasNoLeak products (beyond (marks_of set.now) low) (rows_in gathered.now i)
        → HasNoLeak products (beyond (marks_of set.now) b) (rows_in gathered.now i)) }
{
    leaks_are_closed::<u32>();
    let mut told = low;
    'rounds: for _ in 0..MOST_ROUNDS {
        if rests[i] == 0 {
            return Ok(told);
        }
        let k = first_open(gathered, rests, set, i);
        told = told.max(k.min(high - 1));
        if k >= set.len() {
            return Ok(told);
        }
        let rest = open_rest(rests, i, gathered.places[k]);
        take_rest(rests, rest);
        taken.push(k)?;
    }
    Ok(told)
}

/// Up to which bound below `high` images tell that class i has no leak, where it has none up to `low`. The numbers of the
/// products that give the images of a leak are noted.
pub(crate) fn known_reach(
    gathered: &Gathered,
    alloc: Global,
    set: &[bool],
    i: usize,
    low: usize,
    high: usize,
    taken: &mut Vec<usize>,
) -> Result<usize, AllocError>
    requires ready { IsReady gathered.now }
    requires marks { length set.now ≡ length gathered.now.places.items }
    requires i { i < class_count gathered.now }
    requires some { low < high }
    ensures within { IfOk result (λ b. (low ≤ b) × (b < high)) }
    ensures clean { IfOk result (λ b. (products : List (Product ℕ)) → IsGatheredOf products gathered.now
        → HasNoLeak products (beyond (marks_of set.now) low) (rows_in gathered.now i)
        → HasNoLeak products (beyond (marks_of set.now) b) (rows_in gathered.now i)) }
{
    let Some(images) = &gathered.images else {
        return Ok(low);
    };
    let mut rests = Vec::new(alloc);
    rests.extend_from_slice(images.by_class.as_slice())?;
    let reached = reach_of_rests(gathered, rests.as_mut_slice(), set, i, low, high, taken)?;
    Ok(reached)
}
