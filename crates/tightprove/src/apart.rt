// Spans reduced by others, so that their greatest columns differ.
ghost use Rattle.std.specs.Prelude.{◌≡◌, ◌<◌, ◌++◌, ℕ, [], length, slice_index_or, IfOk, OnOk, IfSome};
ghost use Rattle.std.specs.Bool.{OnFalse};
ghost use Rattle.span_model.specs.Columns.{Columns, set_of};
ghost use Rattle.span_model.specs.Span.{InSpan, Spans};
ghost use Rattle.gf2_span.specs.Basis.{row_sets};
ghost use Rattle.gf2_span.specs.Rows.{HoldsNoLead, LeadsNoMember};
ghost use Rattle.tightprove.specs.Classes.{LeadsApart};

use crate::classes::lead_of;
use gf2_span::{BitRow, Span, leads_are_kept};
use std::alloc::{AllocError, Global};

// Whether the lead, if there is one, is that of a member of the span.
fn leads_member(lead: Option<u32>, span: &Span) -> bool
    ensures { OnFalse result (IfSome lead (λ c. LeadsNoMember (row_sets span.now) c)) }
{
    match lead {
        Some(c) => span.has_lead(c),
        None => false,
    }
}

// Whether one column is the greatest one of members of both spans.
fn share_lead(a: &Span, b: &Span) -> bool
    ensures { OnFalse result (LeadsApart (row_sets a.now) (row_sets b.now)) }
{
    for k in 0..a.rank() {
        if leads_member(lead_of(a, k), b) {
            return true;
        }
    }
    leads_are_kept();
    false
}

// Grows the span by the row, reduced by another span.
fn add_reduced(alloc: Global, rest: &mut Span, row: &BitRow, span: &Span) -> Result<(), AllocError>
    requires row { length row.now ≡ span.now.columns }
    requires columns { rest.old.columns ≡ span.now.columns }
    requires clear { (v : Columns ℕ) → InSpan (row_sets rest.old) v → HoldsNoLead (row_sets span.now) v }
    ensures columns { rest.new.columns ≡ rest.old.columns }
    ensures clear { OnOk result ((v : Columns ℕ) → InSpan (row_sets rest.new) v → HoldsNoLead (row_sets span.now) v) }
    ensures more { OnOk result (Spans (row_sets rest.new) (row_sets rest.old)) }
    ensures row { OnOk result (InSpan (row_sets rest.new ++ row_sets span.now) (set_of row.now)) }
{
    let mut left = row.copy(alloc)?;
    span.reduce(&mut left);
    let _fresh = rest.insert(left)?;
    Ok(())
}

/// The rows of `a`, reduced by the span.
pub(crate) fn reduced(
    alloc: Global,
    columns: u32,
    a: &Span,
    span: &Span,
) -> Result<Span, AllocError>
    requires columns { a.now.columns ≡ columns }
    requires span_columns { span.now.columns ≡ columns }
    ensures columns { IfOk result (λ rest. rest.columns ≡ columns) }
    ensures apart { IfOk result (λ rest. LeadsApart (row_sets rest) (row_sets span.now)) }
    ensures members { IfOk result (λ rest. Spans (row_sets rest ++ row_sets span.now) (row_sets a.now)) }
{
    let _rank = span.rank();
    let mut rest = Span::new(alloc, columns)?;
    for k in 0..a.rank() {
        match a.row(k) {
            Some(row) => add_reduced(alloc, &mut rest, row, span)?,
            None => {}
        }
    }
    Ok(rest)
}

/// Reduces what is left of candidates by the span, where one column leads members of both.
pub(crate) fn settle(
    alloc: Global,
    columns: u32,
    rest: &mut Span,
    span: &Span,
) -> Result<(), AllocError>
    requires columns { rest.old.columns ≡ columns }
    requires span_columns { span.now.columns ≡ columns }
    ensures columns { OnOk result (rest.new.columns ≡ columns) }
    ensures apart { OnOk result (LeadsApart (row_sets rest.new) (row_sets span.now)) }
    ensures members { OnOk result (Spans (row_sets rest.new ++ row_sets span.now) (row_sets rest.old)) }
{
    if !share_lead(rest, span) {
        return Ok(());
    }
    *rest = reduced(alloc, columns, rest, span)?;
    Ok(())
}
