//! Leaks that are followed step by step: each step is one that the leak takes with what the steps before it gave.
ghost use Rattle.std.specs.Prelude.{◌≡◌, ◌≢◌, ◌<◌, ◌++◌, ◌∷◌, ℕ, [], List, length, slice_index_or, IfOk, OnOk, IfSome};
ghost use Rattle.std.specs.Bool.{OnTrue};
ghost use Rattle.span_model.specs.Columns.{empty, set_of, sets_of};
ghost use Rattle.span_model.specs.Span.{InSpan};
ghost use Rattle.span_model.specs.Attack.{Product, HasAttack};
ghost use Rattle.span_model.specs.Refresh.{left_out};
ghost use Rattle.gf2_span.specs.Basis.{row_sets};
ghost use Rattle.tightprove.specs.Classes.{IsGathered, IsLeakOf};
ghost use Rattle.tightprove.specs.Growth.{ReachAll};
ghost use Rattle.tightprove.specs.Private.Gathered.{marks_of, beyond, IsGatheredOf, IsReady};
ghost use Rattle.tightprove.specs.Private.Bounds.{class_count};
ghost use Rattle.tightprove.specs.Private.Chains.{AreClassSteps, IsTaken};

use crate::classes::Classes;
use crate::gathered::{Gathered, is_left_out};
use gf2_span::{BitRow, Span};
use span_model::leaks_are_closed;
use std::alloc::{AllocError, Global};

/// A step from a class to one of its partners.
#[derive(Clone, Copy, Drop)]
pub(crate) struct ClassStep {
    pub(crate) from: usize,
    pub(crate) to: usize,
}

// Whether the row gives the leak with the span.
fn is_given(alloc: Global, row: &BitRow, span: &Span, leak: &BitRow) -> Result<bool, AllocError>
    requires row { length row.now ≡ span.now.columns }
    requires leak { length leak.now ≡ span.now.columns }
    ensures { IfOk result (λ given. OnTrue given (InSpan (set_of row.now ∷ row_sets span.now) (set_of leak.now))) }
{
    let mut rest = row.copy(alloc)?;
    rest.add(leak);
    span.reduce(&mut rest);
    Ok(rest.is_zero())
}

// Whether the only row of a class gives the leak with the span.
fn is_held(alloc: Global, rows: &[BitRow], span: &Span, leak: &BitRow) -> Result<bool, AllocError>
    requires wide { (k : ℕ) → k < length rows.now → length (slice_index_or rows.now k []) ≡ span.now.columns }
    requires leak { length leak.now ≡ span.now.columns }
    ensures { IfOk result (λ held. OnTrue held (InSpan (sets_of rows.now ++ row_sets span.now) (set_of leak.now))) }
{
    match rows {
        [row] => is_given(alloc, row, span, leak),
        _ => Ok(false),
    }
}

// Takes the step, where the class that it goes from gives the leak with the span.
fn take_step(
    alloc: Global,
    classes: &Classes,
    leak: &BitRow,
    span: &mut Span,
    step: ClassStep,
) -> Result<(), AllocError>
    requires classes { IsGathered classes.now }
    requires from { step.from < length classes.now.list.items }
    requires to { step.to < length classes.now.list.items }
    requires leak { length leak.now ≡ classes.now.columns }
    requires columns { span.old.columns ≡ classes.now.columns }
    ensures columns { span.new.columns ≡ span.old.columns }
    ensures taken { OnOk result (IsTaken classes.now.list.items (set_of leak.now) step (row_sets span.old) (row_sets span.new)) }
{
    if !is_held(alloc, classes.list[step.from].rows.as_slice(), span, leak)? {
        return Ok(());
    }
    span.insert_all(alloc, classes.list[step.to].rows.as_slice())?;
    Ok(())
}

// Whether the leak is not empty, and in the span.
fn is_within(alloc: Global, leak: &BitRow, span: &Span) -> Result<bool, AllocError>
    requires { length leak.now ≡ span.now.columns }
    ensures { IfOk result (λ within. OnTrue within (InSpan (row_sets span.now) (set_of leak.now) × (set_of leak.now ≢ empty))) }
{
    if leak.is_zero() {
        return Ok(false);
    }
    let mut rest = leak.copy(alloc)?;
    span.reduce(&mut rest);
    Ok(rest.is_zero())
}

/// The first row of class i, where the steps, taken in turn, show that it is a leak.
pub(crate) fn leak_by(
    alloc: Global,
    classes: &Classes,
    i: usize,
    steps: &[ClassStep],
) -> Result<Option<BitRow>, AllocError>
    requires classes { IsGathered classes.now }
    requires i { i < length classes.now.list.items }
    requires steps { AreClassSteps classes.now.list.items steps.now }
    ensures { IfOk result (λ found. IfSome found (λ leak. (length leak ≡ classes.now.columns) × IsLeakOf classes.now.list.items (set_of leak))) }
{
    let Some(leak) = classes.list[i].rows.as_slice().first() else {
        return Ok(None);
    };
    let mut span = Span::new(alloc, classes.columns)?;
    for step in steps {
        take_step(alloc, classes, leak, &mut span, *step)?;
    }
    if !is_within(alloc, leak, &span)? {
        return Ok(None);
    }
    Ok(Some(leak.copy(alloc)?))
}

// Takes product k, if it is not left out: the rows of each of its operands, where the other one gives the leak with the span.
fn take_product(
    gathered: &Gathered,
    alloc: Global,
    set: &[bool],
    bound: usize,
    leak: &BitRow,
    span: &mut Span,
    k: usize,
) -> Result<(), AllocError>
    requires ready { IsReady gathered.now }
    requires marks { length set.now ≡ length gathered.now.places.items }
    requires leak { length leak.now ≡ gathered.now.classes.columns }
    requires columns { span.old.columns ≡ gathered.now.classes.columns }
    ensures columns { span.new.columns ≡ span.old.columns }
    ensures reached { OnOk result ((products : List (Product ℕ)) → IsGatheredOf products gathered.now
        → ReachAll (left_out (beyond (marks_of set.now) bound) products) (set_of leak.now ∷ []) (row_sets span.old)
        → ReachAll (left_out (beyond (marks_of set.now) bound) products) (set_of leak.now ∷ []) (row_sets span.new)) }
{
    if k >= set.len() || is_left_out(set, bound, k) {
        return Ok(());
    }
    let place = gathered.places[k];
    let rightwards = ClassStep {
        from: place.left,
        to: place.right,
    };
    let leftwards = ClassStep {
        from: place.right,
        to: place.left,
    };
    take_step(alloc, &gathered.classes, leak, span, rightwards)?;
    take_step(alloc, &gathered.classes, leak, span, leftwards)?;
    Ok(())
}

/// Whether the products of these numbers, taken in turn, show that the first row of class i is a leak of the first `bound`
/// products without those of the set.
pub(crate) fn leaks_by(
    gathered: &Gathered,
    alloc: Global,
    set: &[bool],
    bound: usize,
    i: usize,
    numbers: &[usize],
) -> Result<bool, AllocError>
    requires ready { IsReady gathered.now }
    requires marks { length set.now ≡ length gathered.now.places.items }
    requires i { i < class_count gathered.now }
    ensures { IfOk result (λ leaks. OnTrue leaks ((products : List (Product ℕ)) → IsGatheredOf products gathered.now
        → HasAttack (left_out (beyond (marks_of set.now) bound) products))) }
{
    leaks_are_closed::<u32>();
    let Some(leak) = gathered.classes.list[i].rows.as_slice().first() else {
        return Ok(false);
    };
    let mut span = Span::new(alloc, gathered.classes.columns)?;
    for k in numbers {
        take_product(gathered, alloc, set, bound, leak, &mut span, *k)?;
    }
    let leaks = is_within(alloc, leak, &span)?;
    Ok(leaks)
}
