ghost use Rattle.std.specs.Prelude.{◌≡◌, ◌≢◌, ◌<◌, ◌⊎◌, ℕ, length, IfOk, MatchOption};
ghost use Rattle.span_model.specs.Columns.{Columns, empty, set_of};
ghost use Rattle.span_model.specs.Span.{InSpan, Spans};
ghost use Rattle.gf2_span.specs.Basis.{row_sets};
ghost use Rattle.tightprove.specs.Classes.{IsGathered, MeetEmpty};
ghost use Rattle.tightprove.specs.Growth.{IsSaturated, ArePieces};

use crate::apart::reduced;
use crate::classes::{Classes, touching};
use gf2_span::{BitRow, Span};
use std::alloc::{AllocError, Global};

/// A common member of two spans that is not empty.
pub(crate) fn common_member(alloc: Global, a: &Span, b: &Span) -> Result<Option<BitRow>, AllocError>
    requires { a.now.columns ≡ b.now.columns }
    ensures { IfOk result (λ found. MatchOption found (MeetEmpty (row_sets a.now) (row_sets b.now)) (λ v. (length v ≡ a.now.columns) × InSpan (row_sets a.now) (set_of v) × InSpan (row_sets b.now) (set_of v) × (set_of v ≢ empty))) }
{
    let meet = Span::meet(alloc, a, b)?;
    match meet.first_nonzero() {
        Some(row) => Ok(Some(row.copy(alloc)?)),
        None => Ok(None),
    }
}

/// What each operand has, with the span, in common with the candidates, where this is a part of them that is neither empty nor the whole.
pub(crate) fn pieces(
    alloc: Global,
    classes: &Classes,
    candidates: &Span,
    span: &Span,
) -> Result<Vec<Span>, AllocError>
    requires classes { IsGathered classes.now }
    requires columns { candidates.now.columns ≡ classes.now.columns }
    requires span_columns { span.now.columns ≡ classes.now.columns }
    requires ended { Spans (row_sets span.now) (row_sets candidates.now) ⊎ IsSaturated classes.now.list.items candidates.now (row_sets span.now) }
    requires apart { MeetEmpty (row_sets candidates.now) (row_sets span.now) }
    ensures { IfOk result (λ pieces. ArePieces classes.now.list.items candidates.now (row_sets span.now) pieces.items) }
{
    let rest = reduced(alloc, classes.columns, candidates, span)?;
    let mut pieces = Vec::new(alloc);
    for i in &touching(alloc, classes, &rest, span)? {
        let piece = Span::meet_sum(alloc, candidates, classes.list[*i].rows.as_slice(), span)?;
        if piece.rank() < candidates.rank() {
            pieces.push(piece)?;
        }
    }
    Ok(pieces)
}
