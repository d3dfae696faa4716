ghost use Rattle.std.specs.Prelude.{◌≡◌, ◌<◌, ◌≤◌, ◌⊎◌, ◌++◌, ℕ, [], length, true, false, slice_index_or, slice_set, IfOk, OnOk, MatchBool, MatchOption};
ghost use Rattle.std.specs.Bool.{OnFalse};
ghost use Rattle.span_model.specs.Columns.{set_of, sets_of};
ghost use Rattle.span_model.specs.Span.{Spans, SameSpan};
ghost use Rattle.gf2_span.specs.Basis.{row_sets};
ghost use Rattle.gf2_span.specs.Rows.{HaveOwnLeads};
ghost use Rattle.tightprove.specs.Classes.{class_at, class_rows, IsGathered, KeepsLeaks, LeadsApart};
ghost use Rattle.tightprove.specs.Growth.{rows_of_all, MeetsWithin, LeadsWithin, IsHull, IsGrown, IsSaturated, HasRowOutside, IsGrowth, MeetsNoMore, HoldsNoMore, left_over};

use crate::apart::settle;
use crate::classes::{Classes, touching};
use gf2_span::{BitRow, Span, leads_are_kept};
use std::alloc::{AllocError, Global};

/// A span of co-operands that grows for a span of candidates, what is left of these as far as no column leads members of both, and for each class
/// whether its partners are taken.
#[derive(Drop)]
pub(crate) struct Growth {
    pub(crate) span: Span,
    pub(crate) rest: Span,
    pub(crate) taken: BitRow,
}

impl Growth {
    fn start(alloc: Global, classes: &Classes, candidates: &Span) -> Result<Growth, AllocError>
        requires classes { IsGathered classes.now }
        requires columns { candidates.now.columns ≡ classes.now.columns }
        ensures growth { IfOk result (λ growth. IsGrowth classes.now.list.items candidates.now growth) }
        ensures empty { IfOk result (λ growth. growth.span.rows ≡ []) }
    {
        Ok(Growth {
            span: Span::new(alloc, classes.columns)?,
            rest: candidates.copy(alloc)?,
            taken: BitRow::new(alloc, classes.count())?,
        })
    }

    // Takes the partners of class i, which is not taken.
    fn take(
        &mut self,
        alloc: Global,
        classes: &Classes,
        candidates: &Span,
        i: usize,
    ) -> Result<(), AllocError>
        requires i { i < length classes.now.list.items }
        requires classes { IsGathered classes.now }
        requires columns { candidates.now.columns ≡ classes.now.columns }
        requires growth { IsGrowth classes.now.list.items candidates.now self.old }
        requires free { slice_index_or self.old.taken i false ≡ false }
        ensures growth { OnOk result (IsGrowth classes.now.list.items candidates.now self.new) }
        ensures span { OnOk result (SameSpan (row_sets self.new.span) (row_sets self.old.span ++ rows_of_all classes.now.list.items (class_at classes.now.list.items i).partners)) }
        ensures taken { OnOk result (self.new.taken ≡ slice_set self.old.taken i true) }
    {
        for j in classes.list[i].partners.as_slice() {
            let rows = classes.list[*j].rows.as_slice();
            self.span.insert_all(alloc, rows)?;
        }
        settle(alloc, classes.columns, &mut self.rest, &self.span)?;
        self.taken.flip(i as u32);
        Ok(())
    }
}

// Whether the row is outside the span, and its greatest column is that of a member of the rest and the span together. Where it is not so, the
// answer is exact.
fn leads_outside(row: &BitRow, span: &Span, rest: &Span, scratch: &mut BitRow) -> bool
    requires row { length row.now ≡ span.now.columns }
    requires scratch { length scratch.old ≡ span.now.columns }
    requires apart { LeadsApart (row_sets rest.now) (row_sets span.now) }
    ensures answer { OnFalse result (LeadsWithin (row_sets span.now) (row_sets rest.now ++ row_sets span.now) (set_of row.now)) }
    ensures scratch { length scratch.new ≡ length scratch.old }
{
    let Some(c) = row.last() else {
        return false;
    };
    if rest.has_lead(c) {
        return true;
    }
    if !span.has_lead(c) {
        return false;
    }
    !span.contains(row, scratch)
}

// The first of the rows that leads outside. Where none does, the rows hold with the span no more of the rest and the span together than the span.
fn first_outside<'a>(
    rows: &'a [BitRow],
    span: &Span,
    rest: &Span,
    scratch: &mut BitRow,
) -> Option<&'a BitRow>
    requires wide { (k : ℕ) → k < length rows.now → length (slice_index_or rows.now k []) ≡ span.now.columns }
    requires scratch { length scratch.old ≡ span.now.columns }
    requires own { HaveOwnLeads (sets_of rows.now) }
    requires apart { LeadsApart (row_sets rest.now) (row_sets span.now) }
    ensures answer { MatchOption result (MeetsWithin (row_sets rest.now ++ row_sets span.now) (sets_of rows.now) (row_sets span.now)) (λ row. length row.now ≡ span.now.columns) }
    ensures scratch { length scratch.new ≡ length scratch.old }
{
    for row in rows {
        if leads_outside(row, span, rest, scratch) {
            return Some(row);
        }
    }
    leads_are_kept();
    None
}

// Whether the rows hold with the span some of the candidates outside the span. Where they do not, the answer is exact.
fn meets_outside(
    alloc: Global,
    candidates: &Span,
    rows: &[BitRow],
    span: &Span,
    rest: &Span,
    scratch: &mut BitRow,
) -> Result<bool, AllocError>
    requires same { candidates.now.columns ≡ span.now.columns }
    requires wide { (k : ℕ) → k < length rows.now → length (slice_index_or rows.now k []) ≡ span.now.columns }
    requires scratch { length scratch.old ≡ span.now.columns }
    requires own { HaveOwnLeads (sets_of rows.now) }
    requires candidates_in { Spans (row_sets rest.now ++ row_sets span.now) (row_sets candidates.now) }
    requires apart { LeadsApart (row_sets rest.now) (row_sets span.now) }
    ensures answer { IfOk result (λ outside. OnFalse outside (MeetsWithin (row_sets candidates.now) (sets_of rows.now) (row_sets span.now))) }
    ensures scratch { length scratch.new ≡ length scratch.old }
{
    let Some(row) = first_outside(rows, span, rest, scratch) else {
        return Ok(false);
    };
    if candidates.contains(row, scratch) {
        return Ok(true);
    }
    let meet = Span::meet_sum(alloc, candidates, rows, span)?;
    Ok(!meet.is_within(span, scratch))
}

// Whether the rows hold with the span all the candidates.
fn holds(
    alloc: Global,
    candidates: &Span,
    rows: &[BitRow],
    span: &Span,
    scratch: &mut BitRow,
) -> Result<bool, AllocError>
    requires same { candidates.now.columns ≡ span.now.columns }
    requires wide { (k : ℕ) → k < length rows.now → length (slice_index_or rows.now k []) ≡ span.now.columns }
    requires scratch { length scratch.old ≡ span.now.columns }
    ensures answer { IfOk result (λ all. MatchBool all (Spans (sets_of rows.now ++ row_sets span.now) (row_sets candidates.now)) (HasRowOutside candidates.now.rows (sets_of rows.now ++ row_sets span.now))) }
    ensures scratch { length scratch.new ≡ length scratch.old }
{
    let meet = Span::meet_sum(alloc, candidates, rows, span)?;
    Ok(candidates.is_within(&meet, scratch))
}

// Takes the partners of class i where it meets the candidates outside the span. The answer is whether it did.
fn take_if_meets(
    alloc: Global,
    classes: &Classes,
    candidates: &Span,
    growth: &mut Growth,
    i: usize,
    scratch: &mut BitRow,
) -> Result<bool, AllocError>
    requires i { i < length classes.now.list.items }
    requires classes { IsGathered classes.now }
    requires columns { candidates.now.columns ≡ classes.now.columns }
    requires scratch { length scratch.old ≡ classes.now.columns }
    requires growth { IsGrowth classes.now.list.items candidates.now growth.old }
    ensures growth { OnOk result (IsGrowth classes.now.list.items candidates.now growth.new) }
    ensures scratch { length scratch.new ≡ length scratch.old }
    ensures answer { IfOk result (λ took. MatchBool took (left_over growth.new < left_over growth.old) ((growth.new ≡ growth.old) × MeetsNoMore classes.now.list.items candidates.now growth.new i)) }
{
    if growth.taken.has(i as u32) {
        return Ok(false);
    }
    if !meets_outside(
        alloc,
        candidates,
        classes.list[i].rows.as_slice(),
        &growth.span,
        &growth.rest,
        scratch,
    )? {
        return Ok(false);
    }
    growth.take(alloc, classes, candidates, i)?;
    Ok(true)
}

// Takes the partners of each class that meets the candidates outside the span. The answer is whether there was one.
fn hull_pass(
    alloc: Global,
    classes: &Classes,
    candidates: &Span,
    growth: &mut Growth,
    scratch: &mut BitRow,
) -> Result<bool, AllocError>
    requires classes { IsGathered classes.now }
    requires columns { candidates.now.columns ≡ classes.now.columns }
    requires scratch { length scratch.old ≡ classes.now.columns }
    requires growth { IsGrowth classes.now.list.items candidates.now growth.old }
    ensures growth { OnOk result (IsGrowth classes.now.list.items candidates.now growth.new) }
    ensures scratch { OnOk result (length scratch.new ≡ length scratch.old) }
    ensures answer { IfOk result (λ grew. MatchBool grew (left_over growth.new < left_over growth.old) (IsHull classes.now.list.items (row_sets candidates.now) (row_sets growth.new.span))) }
{
    let near = touching(alloc, classes, &growth.rest, &growth.span)?;
    let mut grew = false;
    for i in &near {
        if take_if_meets(alloc, classes, candidates, growth, *i, scratch)? {
            grew = true;
        }
    }
    Ok(grew)
}

// A span outside of which no candidate is a leak: it holds the co-operands of all steps whose operands meet, with it, the candidates outside it.
fn hull(alloc: Global, classes: &Classes, candidates: &Span) -> Result<Span, AllocError>
    requires classes { IsGathered classes.now }
    requires columns { candidates.now.columns ≡ classes.now.columns }
    ensures columns { IfOk result (λ span. span.columns ≡ candidates.now.columns) }
    ensures hull { IfOk result (λ span. IsHull classes.now.list.items (row_sets candidates.now) (row_sets span)) }
{
    let mut growth = Growth::start(alloc, classes, candidates)?;
    let mut scratch = BitRow::new(alloc, classes.columns)?;
    loop {
        if !hull_pass(alloc, classes, candidates, &mut growth, &mut scratch)? {
            let Growth {
                span,
                rest: _rest,
                taken: _taken,
            } = growth;
            return Ok(span);
        }
    }
}

// The candidates in their hull, which hold all their leaks.
fn within_hull(alloc: Global, classes: &Classes, candidates: &Span) -> Result<Span, AllocError>
    requires classes { IsGathered classes.now }
    requires columns { candidates.now.columns ≡ classes.now.columns }
    ensures columns { IfOk result (λ less. less.columns ≡ candidates.now.columns) }
    ensures leaks { IfOk result (λ less. KeepsLeaks classes.now.list.items (row_sets candidates.now) (row_sets less)) }
{
    let hull = hull(alloc, classes, candidates)?;
    let less = Span::meet(alloc, candidates, &hull)?;
    Ok(less)
}

/// The candidates that are left when none is outside its hull.
pub(crate) fn shrink(
    alloc: Global,
    classes: &Classes,
    candidates: &Span,
) -> Result<Span, AllocError>
    requires classes { IsGathered classes.now }
    requires columns { candidates.now.columns ≡ classes.now.columns }
    ensures columns { IfOk result (λ rest. rest.columns ≡ candidates.now.columns) }
    ensures leaks { IfOk result (λ rest. KeepsLeaks classes.now.list.items (row_sets candidates.now) (row_sets rest)) }
    ensures rank { IfOk result (λ rest. length rest.rows ≤ length candidates.now.rows) }
{
    let mut rest = within_hull(alloc, classes, candidates)?;
    if rest.rank() >= candidates.rank() {
        return candidates.copy(alloc);
    }
    while rest.rank() > 0 {
        let less = within_hull(alloc, classes, &rest)?;
        if less.rank() >= rest.rank() {
            return Ok(rest);
        }
        rest = less;
    }
    Ok(rest)
}

// Takes the partners of class i where it holds all the candidates with the span. The answer is whether it did.
fn take_if_holds(
    alloc: Global,
    classes: &Classes,
    candidates: &Span,
    growth: &mut Growth,
    i: usize,
    scratch: &mut BitRow,
) -> Result<bool, AllocError>
    requires i { i < length classes.now.list.items }
    requires classes { IsGathered classes.now }
    requires columns { candidates.now.columns ≡ classes.now.columns }
    requires scratch { length scratch.old ≡ classes.now.columns }
    requires growth { IsGrowth classes.now.list.items candidates.now growth.old }
    requires grown { IsGrown classes.now.list.items (row_sets candidates.now) (row_sets growth.old.span) }
    ensures growth { OnOk result (IsGrowth classes.now.list.items candidates.now growth.new) }
    ensures grown { OnOk result (IsGrown classes.now.list.items (row_sets candidates.now) (row_sets growth.new.span)) }
    ensures scratch { length scratch.new ≡ length scratch.old }
    ensures answer { IfOk result (λ took. MatchBool took (left_over growth.new < left_over growth.old) ((growth.new ≡ growth.old) × HoldsNoMore classes.now.list.items candidates.now growth.new i)) }
{
    if growth.taken.has(i as u32) {
        return Ok(false);
    }
    if !holds(
        alloc,
        candidates,
        classes.list[i].rows.as_slice(),
        &growth.span,
        scratch,
    )? {
        return Ok(false);
    }
    growth.take(alloc, classes, candidates, i)?;
    Ok(true)
}

// Takes the partners of each class that holds all the candidates with the span. The answer is whether there was one.
fn grow_pass(
    alloc: Global,
    classes: &Classes,
    candidates: &Span,
    growth: &mut Growth,
    scratch: &mut BitRow,
) -> Result<bool, AllocError>
    requires classes { IsGathered classes.now }
    requires columns { candidates.now.columns ≡ classes.now.columns }
    requires scratch { length scratch.old ≡ classes.now.columns }
    requires growth { IsGrowth classes.now.list.items candidates.now growth.old }
    requires outside { HasRowOutside candidates.now.rows (row_sets growth.old.span) }
    requires grown { IsGrown classes.now.list.items (row_sets candidates.now) (row_sets growth.old.span) }
    ensures growth { OnOk result (IsGrowth classes.now.list.items candidates.now growth.new) }
    ensures grown { OnOk result (IsGrown classes.now.list.items (row_sets candidates.now) (row_sets growth.new.span)) }
    ensures scratch { OnOk result (length scratch.new ≡ length scratch.old) }
    ensures answer { IfOk result (λ grew. MatchBool grew (left_over growth.new < left_over growth.old) (IsSaturated classes.now.list.items candidates.now (row_sets growth.new.span))) }
{
    let near = touching(alloc, classes, &growth.rest, &growth.span)?;
    let mut grew = false;
    for i in &near {
        if take_if_holds(alloc, classes, candidates, growth, *i, scratch)? {
            grew = true;
        }
    }
    Ok(grew)
}

/// The span of the co-operands of steps that all the candidates reach together: of all such steps, or of enough that it holds all the candidates.
pub(crate) fn grow(alloc: Global, classes: &Classes, candidates: &Span) -> Result<Span, AllocError>
    requires classes { IsGathered classes.now }
    requires columns { candidates.now.columns ≡ classes.now.columns }
    ensures columns { IfOk result (λ span. span.columns ≡ candidates.now.columns) }
    ensures grown { IfOk result (λ span. IsGrown classes.now.list.items (row_sets candidates.now) (row_sets span)) }
    ensures ended { IfOk result (λ span. Spans (row_sets span) (row_sets candidates.now) ⊎ IsSaturated classes.now.list.items candidates.now (row_sets span)) }
{
    let mut growth = Growth::start(alloc, classes, candidates)?;
    let mut scratch = BitRow::new(alloc, classes.columns)?;
    loop {
        if candidates.is_within(&growth.span, &mut scratch)
            || !grow_pass(alloc, classes, candidates, &mut growth, &mut scratch)?
        {
            let Growth {
                span,
                rest: _rest,
                taken: _taken,
            } = growth;
            return Ok(span);
        }
    }
}
