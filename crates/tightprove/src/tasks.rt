ghost use Rattle.std.specs.Prelude.{◌≡◌, ◌<◌, ◌≤◌, ◌+◌, ◌++◌, ℕ, [], ◌∷◌, length, IfOk, OnOk, MatchOption};
ghost use Rattle.span_model.specs.Columns.{set_of};
ghost use Rattle.gf2_span.specs.Basis.{row_sets};
ghost use Rattle.tightprove.specs.Classes.{IsGathered, IsClean, IsLeakOf};
ghost use Rattle.tightprove.specs.Growth.{AreKnown};
ghost use Rattle.tightprove.specs.Tasks.{searches, AreInOrder, HaveColumns, IsDone};

use crate::classes::Classes;
use crate::known::Known;
use crate::split::{Split, search_span};
use gf2_span::{BitRow, Span};
use std::alloc::{AllocError, Global};

/// A span to be searched, or one to be recorded when all later tasks are done.
#[derive(Drop)]
pub(crate) enum Task {
    Search(Span),
    Record(Span),
}

fn push_searches(tasks: &mut Vec<Task>, pieces: Vec<Span>) -> Result<(), AllocError>
    ensures { OnOk result (tasks.new.items ≡ tasks.old.items ++ searches pieces.items) }
{
    for piece in pieces {
        tasks.push(Task::Search(piece))?;
    }
    Ok(())
}

// Does a task, and pushes those that come of it. The answer is a leak, where one is found.
fn do_task(
    alloc: Global,
    classes: &Classes,
    task: Task,
    tasks: &mut Vec<Task>,
    known: &mut Known,
    scratch: &mut BitRow,
) -> Result<Option<BitRow>, AllocError>
    requires classes { IsGathered classes.now }
    requires known { AreKnown classes.now.list.items classes.now.columns known.old.spans.items }
    requires columns { HaveColumns classes.now.columns (tasks.old.items ++ task ∷ []) }
    requires order { AreInOrder classes.now.list.items (tasks.old.items ++ task ∷ []) }
    requires scratch { length scratch.old ≡ classes.now.columns }
    ensures known { OnOk result (AreKnown classes.now.list.items classes.now.columns known.new.spans.items) }
    ensures scratch { OnOk result (length scratch.new ≡ classes.now.columns) }
    ensures answer { IfOk result (λ found. MatchOption found (IsDone classes.now.list.items classes.now.columns (tasks.old.items ++ task ∷ []) tasks.new.items) (λ leak. (length leak ≡ classes.now.columns) × IsLeakOf classes.now.list.items (set_of leak))) }
{
    match task {
        Task::Record(span) => {
            known.record(alloc, span)?;
            Ok(None)
        }
        Task::Search(span) => {
            if known.holds(&span, scratch) {
                return Ok(None);
            }
            match search_span(alloc, classes, &span)? {
                Split::Found(leak) => Ok(Some(leak)),
                Split::Pieces(pieces) => {
                    tasks.push(Task::Record(span))?;
                    push_searches(tasks, pieces)?;
                    Ok(None)
                }
            }
        }
    }
}

/// A leak among the candidates, where there is one.
pub(crate) fn leak_among(
    alloc: Global,
    classes: &Classes,
    candidates: Span,
    known: &mut Known,
) -> Result<Option<BitRow>, AllocError>
    requires classes { IsGathered classes.now }
    requires columns { candidates.columns ≡ classes.now.columns }
    requires known { AreKnown classes.now.list.items classes.now.columns known.old.spans.items }
    ensures known { OnOk result (AreKnown classes.now.list.items classes.now.columns known.new.spans.items) }
    ensures answer { IfOk result (λ found. MatchOption found (IsClean classes.now.list.items (row_sets candidates)) (λ leak. (length leak ≡ classes.now.columns) × IsLeakOf classes.now.list.items (set_of leak))) }
{
    let mut scratch = BitRow::new(alloc, classes.columns)?;
    let mut tasks = Vec::new(alloc);
    tasks.push(Task::Search(candidates))?;
    while let Some(task) = tasks.pop() {
        let found = do_task(alloc, classes, task, &mut tasks, known, &mut scratch)?;
        if found.is_some() {
            return Ok(found);
        }
    }
    Ok(None)
}
