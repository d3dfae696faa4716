ghost use Rattle.std.specs.Prelude.{◌≡◌, IfOk};
ghost use Rattle.tightprove.specs.Classes.{IsGathered};
ghost use Rattle.tightprove.specs.Tasks.{IsSplitOf};

use crate::classes::Classes;
use crate::growth::{grow, shrink};
use crate::pieces::{common_member, pieces};
use gf2_span::{BitRow, Span};
use std::alloc::{AllocError, Global};

/// What the search of one span of candidates gives.
#[derive(Drop)]
pub(crate) enum Split {
    Found(BitRow),
    Pieces(Vec<Span>),
}

/// Searches one span of candidates: finds a leak, or parts of it that hold all its leaks.
pub(crate) fn search_span(
    alloc: Global,
    classes: &Classes,
    candidates: &Span,
) -> Result<Split, AllocError>
    requires classes { IsGathered classes.now }
    requires columns { candidates.now.columns ≡ classes.now.columns }
    ensures { IfOk result (λ split. IsSplitOf classes.now.list.items candidates.now split) }
{
    let rest = shrink(alloc, classes, candidates)?;
    if rest.rank() == 0 {
        return Ok(Split::Pieces(Vec::new(alloc)));
    }
    let span = grow(alloc, classes, &rest)?;
    match common_member(alloc, &rest, &span)? {
        Some(leak) => Ok(Split::Found(leak)),
        None => Ok(Split::Pieces(pieces(alloc, classes, &rest, &span)?)),
    }
}
