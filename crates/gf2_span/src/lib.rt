//! Spans of bit rows: sets of columns under symmetric difference, with membership, sums and
//! intersections.
#![tactic(auto)]

mod row;
mod span;
mod words;

pub use row::{BitRow, copy_rows};
pub use span::{Span, leads_are_kept};
