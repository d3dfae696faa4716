ghost use Rattle.std.specs.Prelude.{◌≡◌, ◌<◌, ◌+◌, ℕ, List, length, slice_index_or, false, IfOk, OnOk, MatchBool};
ghost use Rattle.span_model.specs.Attack.{Product, HasAttack};
ghost use Rattle.span_model.specs.Refresh.{left_out};
ghost use Rattle.linear_view.specs.View.{products_of};
ghost use Rattle.tightprove.specs.LeavingOut.{IsLeastLeftOut};
ghost use Rattle.tightprove.specs.Private.Gathered.{marks_of, beyond, IsGatheredOf, IsReady, HasSameRows};
ghost use Rattle.tightprove.specs.Private.Bounds.{class_count, AreBounds, IsCleanTo, IsLeastOf};

use crate::bounds::{least_of, raise_clean, raise_rest};
use crate::gathered::Gathered;
use linear_view::View;
use span_model::{attack_carries_over, leaks_are_closed};
use std::alloc::{AllocError, Global};

// Whether product m, with the products before it that are not in the set, gives an attack. Bounds at m or below are raised
// first: the least of them, which is kept, tells whether there are any.
fn must_go(
    gathered: &mut Gathered,
    alloc: Global,
    set: &[bool],
    m: usize,
    bounds: &mut [usize],
    least: &mut usize,
) -> Result<bool, AllocError>
    requires ready { IsReady gathered.old }
    requires marks { length set.now ≡ length gathered.old.places.items }
    requires count { length bounds.old ≡ class_count gathered.old }
    requires within { m < length set.now }
    requires least { IsLeastOf bounds.old (length set.now) least.old }
    ensures least { OnOk result (IsLeastOf bounds.new (length set.now) least.new) }
    ensures ready { OnOk result (IsReady gathered.new) }
    ensures rows { OnOk result (HasSameRows gathered.old gathered.new) }
    ensures bounds { OnOk result ((products : List (Product ℕ)) → IsGatheredOf products gathered.old
        → IsCleanTo products (marks_of set.now) gathered.old m
        → AreBounds products (marks_of set.now) gathered.old bounds.old → AreBounds products (marks_of set.now) gathered.old bounds.new) }
    ensures answer { IfOk result (λ goes. (products : List (Product ℕ)) → IsGatheredOf products gathered.old
        → IsCleanTo products (marks_of set.now) gathered.old m
        → AreBounds products (marks_of set.now) gathered.old bounds.old
        → MatchBool goes (HasAttack (left_out (beyond (marks_of set.now) (m + 1)) products))
        (IsCleanTo products (marks_of set.now) gathered.old (m + 1))) }
{
    attack_carries_over::<u32, u32>();
    if m < *least {
        return Ok(false);
    }
    raise_clean(gathered, alloc, set, m, bounds)?;
    raise_rest(gathered, alloc, set, m, bounds)?;
    *least = least_of(bounds, set.len());
    Ok(*least <= m)
}

/// The marks of products without which the others have no attack, and of which none can be put back. A product goes where
/// those before it that stay give an attack with it.
pub fn least_left_out(alloc: Global, view: &View) -> Result<Vec<bool>, AllocError>
    ensures marks { IfOk result (λ set. length set.items ≡ length view.now.products) }
    ensures least { IfOk result (λ set. IsLeastLeftOut (products_of view.now) (λ k. slice_index_or set.items k false)) }
{
    attack_carries_over::<u32, u32>();
    leaks_are_closed::<u32>();
    let mut gathered = Gathered::of(alloc, view)?;
    let mut bounds = vec![in alloc; 0; gathered.classes.list.len()]?;
    let mut set = vec![in alloc; false; gathered.places.len()]?;
    let mut least = least_of(&bounds, set.len());
    for m in 0..gathered.places.len() {
        let goes = must_go(
            &mut gathered,
            alloc,
            set.as_slice(),
            m,
            bounds.as_mut_slice(),
            &mut least,
        )?;
        set[m] = goes;
    }
    Ok(set)
}
