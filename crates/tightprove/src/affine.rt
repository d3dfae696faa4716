ghost use Rattle.std.specs.Prelude.{◌≡◌, ◌<◌, ℕ, length, map, slice_index, IfOk, OnOk, Contains};
ghost use Rattle.std.specs.Bool.{OnTrue};
ghost use Rattle.tightprove.specs.Classes.{class_rows, IsGathered, IsClean};
ghost use Rattle.tightprove.specs.Private.Images.{AreImages};
ghost use Rattle.tightprove.specs.Private.Affine.{cleared_by, AreMapped, HasEnded};
ghost use Rattle.tightprove.specs.Private.Chains.{AreClassSteps, NotesPartners};

use crate::chains::ClassStep;
use crate::classes::Classes;
use crate::images::Images;
use std::alloc::{AllocError, Global};

/// How often rests are cleared, or gone through, at most: each time but the last one takes away one of 64 dimensions.
pub(crate) const MOST_ROUNDS: usize = 65;

// The rest of a word where the pivot is to have the rest 0.
fn cleared(word: u64, pivot: u64) -> u64
    requires { 0 < pivot }
    ensures { result ≡ cleared_by pivot word }
{
    if (word >> pivot.trailing_zeros()) & 1 == 1 {
        word ^ pivot
    } else {
        word
    }
}

// Clears each rest by the pivot.
fn clear_all(rests: &mut [u64], pivot: u64)
    requires { 0 < pivot }
    ensures { rests.new ≡ map (cleared_by pivot) rests.old }
{
    for k in 0..rests.len() {
        rests[k] = cleared(rests[k], pivot);
    }
}

/// Makes a rest 0, and with it all that it tells apart.
pub(crate) fn take_rest(rests: &mut [u64], rest: u64)
    ensures { AreMapped rests.old rests.new }
{
    if rest == 0 {
        return;
    }
    clear_all(rests, rest);
}

// Makes the rests of the partners of class `from` 0, and notes the steps to those that had another.
fn take_partners(
    rests: &mut [u64],
    from: usize,
    partners: &[usize],
    steps: &mut Vec<ClassStep>,
) -> Result<(), AllocError>
    requires { (j : ℕ) → Contains partners.now j → j < length rests.old }
    ensures mapped { OnOk result (AreMapped rests.old rests.new) }
    ensures steps { OnOk result (NotesPartners from partners.now steps.old.items steps.new.items) }
{
    for j in partners {
        let rest = rests[*j];
        if rest != 0 {
            take_rest(rests, rest);
            steps.push(ClassStep { from, to: *j })?;
        }
    }
    Ok(())
}

// Takes the steps from class k, where it has the rest of class i.
fn take_class(
    rests: &mut [u64],
    classes: &Classes,
    i: usize,
    k: usize,
    steps: &mut Vec<ClassStep>,
) -> Result<(), AllocError>
    requires classes { IsGathered classes.now }
    requires count { length rests.old ≡ length classes.now.list.items }
    requires i { i < length classes.now.list.items }
    requires k { k < length classes.now.list.items }
    requires steps { AreClassSteps classes.now.list.items steps.old.items }
    ensures mapped { OnOk result (AreMapped rests.old rests.new) }
    ensures steps { OnOk result (AreClassSteps classes.now.list.items steps.new.items) }
{
    if rests[k] != rests[i] {
        return Ok(());
    }
    take_partners(rests, k, classes.list[k].partners.as_slice(), steps)?;
    Ok(())
}

// Takes the steps from each class that has the rest of class i.
fn take_all(
    rests: &mut [u64],
    classes: &Classes,
    i: usize,
    steps: &mut Vec<ClassStep>,
) -> Result<(), AllocError>
    requires classes { IsGathered classes.now }
    requires count { length rests.old ≡ length classes.now.list.items }
    requires i { i < length classes.now.list.items }
    requires steps { AreClassSteps classes.now.list.items steps.old.items }
    ensures mapped { OnOk result (AreMapped rests.old rests.new) }
    ensures steps { OnOk result (AreClassSteps classes.now.list.items steps.new.items) }
{
    for k in 0..rests.len() {
        take_class(rests, classes, i, k, steps)?;
    }
    Ok(())
}

// Whether the partners have the rest 0.
fn are_zero(rests: &[u64], partners: &[usize]) -> bool
    requires { (j : ℕ) → Contains partners.now j → j < length rests.now }
    ensures { OnTrue result ((j : ℕ) → Contains partners.now j → slice_index rests.now j ≡ 0) }
{
    for j in partners {
        if rests[*j] != 0 {
            return false;
        }
    }
    true
}

// Whether the partners of class k have the rest 0, where it has the rest of class i.
fn has_ended(rests: &[u64], classes: &Classes, i: usize, k: usize) -> bool
    requires classes { IsGathered classes.now }
    requires count { length rests.now ≡ length classes.now.list.items }
    requires i { i < length classes.now.list.items }
    requires k { k < length classes.now.list.items }
    ensures { OnTrue result (HasEnded classes.now.list.items rests.now i k) }
{
    if rests[k] != rests[i] {
        return true;
    }
    are_zero(rests, classes.list[k].partners.as_slice())
}

// Whether this is so of each class.
fn have_ended(rests: &[u64], classes: &Classes, i: usize) -> bool
    requires classes { IsGathered classes.now }
    requires count { length rests.now ≡ length classes.now.list.items }
    requires i { i < length classes.now.list.items }
    ensures { OnTrue result ((k : ℕ) → k < length rests.now → HasEnded classes.now.list.items rests.now i k) }
{
    for k in 0..rests.len() {
        if !has_ended(rests, classes, i, k) {
            return false;
        }
    }
    true
}

/// Whether the affine coset that is grown for the row of class i does not come to 0. Then the row is the leak of no attack.
/// The steps by which it grows are noted.
pub(crate) fn is_apart_by_rests(
    alloc: Global,
    images: &Images,
    classes: &Classes,
    i: usize,
    steps: &mut Vec<ClassStep>,
) -> Result<bool, AllocError>
    requires classes { IsGathered classes.now }
    requires images { AreImages classes.now.list.items images.now }
    requires i { i < length classes.now.list.items }
    requires steps { AreClassSteps classes.now.list.items steps.old.items }
    ensures steps { OnOk result (AreClassSteps classes.now.list.items steps.new.items) }
    ensures apart { IfOk result (λ apart. OnTrue apart (IsClean classes.now.list.items (class_rows classes.now.list.items i))) }
{
    let mut rests = Vec::new(alloc);
    rests.extend_from_slice(images.by_class.as_slice())?;
    'rounds: for _ in 0..MOST_ROUNDS {
        if rests[i] == 0 {
            return Ok(false);
        }
        if have_ended(rests.as_slice(), classes, i) {
            return Ok(true);
        }
        take_all(rests.as_mut_slice(), classes, i, steps)?;
    }
    Ok(false)
}
