ghost use Rattle.std.specs.Prelude.{◌≡◌, ◌<◌, ◌≤◌, ◌+◌, ℕ, List, length, IfOk, OnOk, MatchBool};
ghost use Rattle.span_model.specs.Attack.{Product, HasAttack};
ghost use Rattle.span_model.specs.Refresh.{left_out};
ghost use Rattle.tightprove.specs.Private.Gathered.{marks_of, beyond, rows_in, HasNoLeak, IsGatheredOf, IsReady, HasSameRows};
ghost use Rattle.tightprove.specs.Private.Bounds.{class_count, AreBounds, IsCleanTo, AreStuck, IsLeastOf, IsCleanBound, IsRestBound};
ghost use Rattle.tightprove.specs.Growth.{AreKnown};

use crate::chains::leaks_by;
use crate::gathered::Gathered;
use crate::known::Known;
use crate::reaches::known_reach;
use span_model::leaks_are_closed;
use std::alloc::{AllocError, Global};

// Whether one class has a leak among the first `bound` products without those of the set.
fn leaks_below(
    gathered: &mut Gathered,
    alloc: Global,
    set: &[bool],
    i: usize,
    bound: usize,
) -> Result<bool, AllocError>
    requires ready { IsReady gathered.old }
    requires marks { length set.now ≡ length gathered.old.places.items }
    requires i { i < class_count gathered.old }
    ensures ready { OnOk result (IsReady gathered.new) }
    ensures rows { OnOk result (HasSameRows gathered.old gathered.new) }
    ensures answer { IfOk result (λ leaks. (products : List (Product ℕ)) → IsGatheredOf products gathered.old
        → MatchBool leaks (HasAttack (left_out (beyond (marks_of set.now) bound) products))
        (HasNoLeak products (beyond (marks_of set.now) bound) (rows_in gathered.old i))) }
{
    leaks_are_closed::<u32>();
    gathered.leave_out(set, bound)?;
    let mut known = Known::new(alloc, gathered.classes.columns)?;
    let leaks = gathered.leaks_in(alloc, i, &mut known)?;
    Ok(leaks)
}

// Up to which bound a class has no leak, where it has none up to `low`, and there is an attack up to `high`.
fn reach_exactly(
    gathered: &mut Gathered,
    alloc: Global,
    set: &[bool],
    i: usize,
    mut low: usize,
    mut high: usize,
) -> Result<usize, AllocError>
    requires ready { IsReady gathered.old }
    requires marks { length set.now ≡ length gathered.old.places.items }
    requires i { i < class_count gathered.old }
    requires some { low < high }
    ensures ready { OnOk result (IsReady gathered.new) }
    ensures rows { OnOk result (HasSameRows gathered.old gathered.new) }
    ensures within { IfOk result (λ b. (low ≤ b) × (b < high)) }
    ensures reach { IfOk result (λ b. (products : List (Product ℕ)) → IsGatheredOf products gathered.old
        → HasNoLeak products (beyond (marks_of set.now) low) (rows_in gathered.old i)
        → HasAttack (left_out (beyond (marks_of set.now) high) products)
        → HasNoLeak products (beyond (marks_of set.now) b) (rows_in gathered.old i)
        × HasAttack (left_out (beyond (marks_of set.now) (b + 1)) products)) }
{
    'halve: while high - low > 1 {
        let mid = low + (high - low) / 2;
        if leaks_below(gathered, alloc, set, i, mid)? {
            high = mid;
        } else {
            low = mid;
        }
    }
    Ok(low)
}

/// The same, by images as far as these tell.
pub(crate) fn reach(
    gathered: &mut Gathered,
    alloc: Global,
    set: &[bool],
    i: usize,
    low: usize,
    high: usize,
) -> Result<usize, AllocError>
    requires ready { IsReady gathered.old }
    requires marks { length set.now ≡ length gathered.old.places.items }
    requires i { i < class_count gathered.old }
    requires some { low < high }
    ensures ready { OnOk result (IsReady gathered.new) }
    ensures rows { OnOk result (HasSameRows gathered.old gathered.new) }
    ensures within { IfOk result (λ b. (low ≤ b) × (b < high)) }
    ensures reach { IfOk result (λ b. (products : List (Product ℕ)) → IsGatheredOf products gathered.old
        → HasNoLeak products (beyond (marks_of set.now) low) (rows_in gathered.old i)
        → HasAttack (left_out (beyond (marks_of set.now) high) products)
        → HasNoLeak products (beyond (marks_of set.now) b) (rows_in gathered.old i)
        × HasAttack (left_out (beyond (marks_of set.now) (b + 1)) products)) }
{
    let mut taken = Vec::new(alloc);
    let told = known_reach(gathered, alloc, set, i, low, high, &mut taken)?;
    if told + 1 == high {
        return Ok(told);
    }
    if leaks_by(gathered, alloc, set, told + 1, i, taken.as_slice())? {
        return Ok(told);
    }
    if leaks_below(gathered, alloc, set, i, told + 1)? {
        return Ok(told);
    }
    let reached = reach_exactly(gathered, alloc, set, i, told + 1, high)?;
    Ok(reached)
}

/// The least of the bounds, or `most` where none is below that.
pub(crate) fn least_of(bounds: &[usize], most: usize) -> usize
    ensures { IsLeastOf bounds.now most result }
{
    let mut least = most;
    for bound in bounds {
        least = least.min(*bound);
    }
    least
}

// The bound of class i: where it is at `m` or below, and the class has no leak, it is raised to `all`.
fn clean_bound(
    gathered: &Gathered,
    alloc: Global,
    i: usize,
    bound: usize,
    m: usize,
    all: usize,
    known: &mut Known,
) -> Result<usize, AllocError>
    requires ready { IsReady gathered.now }
    requires i { i < class_count gathered.now }
    requires known { AreKnown gathered.now.classes.list.items gathered.now.classes.columns known.old.spans.items }
    ensures known { OnOk result (AreKnown gathered.now.classes.list.items gathered.now.classes.columns known.new.spans.items) }
    ensures bound { IfOk result (λ b. IsCleanBound gathered.now i bound m all b) }
{
    if bound > m {
        return Ok(bound);
    }
    if gathered.leaks_in(alloc, i, known)? {
        return Ok(bound);
    }
    Ok(all)
}

/// Raises the bounds that are at `m` or below of those classes that have no leak at all.
pub(crate) fn raise_clean(
    gathered: &mut Gathered,
    alloc: Global,
    set: &[bool],
    m: usize,
    bounds: &mut [usize],
) -> Result<(), AllocError>
    requires ready { IsReady gathered.old }
    requires marks { length set.now ≡ length gathered.old.places.items }
    requires count { length bounds.old ≡ class_count gathered.old }
    ensures ready { OnOk result (IsReady gathered.new) }
    ensures rows { OnOk result (HasSameRows gathered.old gathered.new) }
    ensures bounds { OnOk result ((products : List (Product ℕ)) → IsGatheredOf products gathered.old
        → AreBounds products (marks_of set.now) gathered.old bounds.old → AreBounds products (marks_of set.now) gathered.old bounds.new) }
    ensures stuck { OnOk result ((products : List (Product ℕ)) → IsGatheredOf products gathered.old
        → m < length set.now → AreStuck products (marks_of set.now) gathered.old m (length set.now) bounds.new) }
{
    leaks_are_closed::<u32>();
    gathered.leave_out(set, set.len())?;
    let mut known = Known::new(alloc, gathered.classes.columns)?;
    for i in 0..bounds.len() {
        bounds[i] = clean_bound(gathered, alloc, i, bounds[i], m, set.len(), &mut known)?;
    }
    Ok(())
}

// The bound of class i: where it is at `m` or below, it is raised as far as the class has no leak.
fn rest_bound(
    gathered: &mut Gathered,
    alloc: Global,
    set: &[bool],
    i: usize,
    bound: usize,
    m: usize,
) -> Result<usize, AllocError>
    requires ready { IsReady gathered.old }
    requires marks { length set.now ≡ length gathered.old.places.items }
    requires i { i < class_count gathered.old }
    requires within { m < length set.now }
    ensures ready { OnOk result (IsReady gathered.new) }
    ensures rows { OnOk result (HasSameRows gathered.old gathered.new) }
    ensures bound { IfOk result (λ b. (products : List (Product ℕ)) → IsGatheredOf products gathered.old
        → HasNoLeak products (beyond (marks_of set.now) m) (rows_in gathered.old i)
        → (bound ≤ m → HasAttack (left_out (beyond (marks_of set.now) (length set.now)) products))
        → IsRestBound products (marks_of set.now) (rows_in gathered.old i) bound m b) }
{
    if bound > m {
        return Ok(bound);
    }
    let reached = reach(gathered, alloc, set, i, m, set.len())?;
    Ok(reached)
}

/// Raises the other bounds that are at `m` or below as far as their classes have no leak.
pub(crate) fn raise_rest(
    gathered: &mut Gathered,
    alloc: Global,
    set: &[bool],
    m: usize,
    bounds: &mut [usize],
) -> Result<(), AllocError>
    requires ready { IsReady gathered.old }
    requires marks { length set.now ≡ length gathered.old.places.items }
    requires count { length bounds.old ≡ class_count gathered.old }
    requires within { m < length set.now }
    ensures ready { OnOk result (IsReady gathered.new) }
    ensures rows { OnOk result (HasSameRows gathered.old gathered.new) }
    ensures bounds { OnOk result ((products : List (Product ℕ)) → IsGatheredOf products gathered.old
        → IsCleanTo products (marks_of set.now) gathered.old m → AreStuck products (marks_of set.now) gathered.old m (length set.now) bounds.old
        → AreBounds products (marks_of set.now) gathered.old bounds.old → AreBounds products (marks_of set.now) gathered.old bounds.new) }
    ensures stuck { OnOk result ((products : List (Product ℕ)) → IsGatheredOf products gathered.old
        → IsCleanTo products (marks_of set.now) gathered.old m → AreStuck products (marks_of set.now) gathered.old m (length set.now) bounds.old
        → AreStuck products (marks_of set.now) gathered.old m (m + 1) bounds.new) }
{
    for i in 0..bounds.len() {
        bounds[i] = rest_bound(gathered, alloc, set, i, bounds[i], m)?;
    }
    Ok(())
}
