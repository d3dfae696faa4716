ghost use Rattle.std.specs.Prelude.{◌≡◌, ◌<◌, ◌++◌, ℕ, [], ◌∷◌, length, slice_index_or, IfOk, OnOk};
ghost use Rattle.std.specs.Bool.{OnTrue};
ghost use Rattle.span_model.specs.Span.{Spans};
ghost use Rattle.gf2_span.specs.Basis.{row_sets};
ghost use Rattle.tightprove.specs.Growth.{span_at};

use crate::classes::{empty_lanes, lane_at, lead_of, leads_of};
use gf2_span::{BitRow, Span};
use std::alloc::{AllocError, Global};
use tor_edge::List;

/// Spans in which no member is a leak.
#[derive(Drop)]
pub(crate) struct Known {
    pub(crate) spans: Vec<Span>,
    // by column: the spans of which a row has it as its greatest column
    by_lead: Vec<List<usize>>,
}

impl Known {
    pub(crate) fn new(alloc: Global, columns: u32) -> Result<Known, AllocError>
        ensures { IfOk result (λ known. known.spans.items ≡ []) }
    {
        Ok(Known {
            spans: Vec::new(alloc),
            by_lead: empty_lanes(alloc, columns)?,
        })
    }

    /// Whether the candidates are known to lie within one of the spans.
    pub(crate) fn holds(&self, candidates: &Span, scratch: &mut BitRow) -> bool
        requires columns { (n : ℕ) → n < length self.now.spans.items → (span_at self.now.spans.items n).columns ≡ candidates.now.columns }
        requires scratch { length scratch.old ≡ candidates.now.columns }
        ensures answer { OnTrue result ((n : ℕ) × (n < length self.now.spans.items) × Spans (row_sets (span_at self.now.spans.items n)) (row_sets candidates.now)) }
        ensures scratch { length scratch.new ≡ length scratch.old }
    {
        let Some(lead) = lead_of(candidates, 0) else {
            return false;
        };
        for n in lane_at(&self.by_lead, lead) {
            if let Some(span) = self.spans.get(*n) {
                if candidates.is_within(span, scratch) {
                    return true;
                }
            }
        }
        false
    }

    pub(crate) fn record(&mut self, alloc: Global, span: Span) -> Result<(), AllocError>
        ensures { OnOk result (self.new.spans.items ≡ self.old.spans.items ++ span ∷ []) }
    {
        for lead in &leads_of(alloc, &span)? {
            if let Some(lane) = self.by_lead.get_mut(*lead as usize) {
                lane.push(self.spans.len())?;
            }
        }
        self.spans.push(span)?;
        Ok(())
    }
}
