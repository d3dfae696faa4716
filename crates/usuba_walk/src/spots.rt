ghost use Rattle.std.specs.Prelude.{◌≡◌, ◌+◌, ◌≤◌, [], ◌∷◌, ◌++◌, map, length, Some, OnOk, IfOk};
ghost use Rattle.usuba_model.specs.Faults.{when as when_holds, first_kind};
ghost use Rattle.usuba_model.specs.Walk.{walk_fault, spot_step};
ghost use Rattle.usuba_code.specs.Code.{read_cell};
ghost use Rattle.usuba_model.specs.Numbers.{cell_number};
ghost use Rattle.usuba_walk.specs.State.Progress.{IfFault, Takes, Makes};
ghost use Rattle.usuba_walk.specs.State.Scopes.{read_in};

use crate::count::counted;
use crate::faults::{first, when};
use crate::progress::Progress;
use crate::pushes::push_reads;
use crate::scope::Scope;
use crate::stop::Stop;
use usuba_cells::{Counter, SpotRead};
use usuba_model::FaultKind;
use usuba_trees::Spot;

// What a spot has at fault.
fn spot_fault(read: SpotRead) -> Option<FaultKind>
    ensures { result ≡ first_kind (when_holds read.divided_by_zero FaultKind.ZeroDivisor)
        (when_holds read.index_out FaultKind.IndexOut) }
{
    first(
        when(read.divided_by_zero, FaultKind::ZeroDivisor),
        when(read.index_out, FaultKind::IndexOut),
    )
}

/// Takes the step of a spot, and keeps its cells.
pub fn read_cells(
    scope: &Scope<'_>,
    counters: &[Counter<'_>],
    progress: &mut Progress,
    spot: &Spot,
) -> Result<(), Stop>
    ensures takes { OnOk result
        (Takes progress.old progress.new
        (spot_step spot.now.name.place (read_in scope.now counters.now spot.now) ∷ []) progress.old.table) }
    ensures cells { OnOk result
        (progress.new.cells.items ≡ map (cell_number scope.now.variables)
        (read_in scope.now counters.now spot.now).cells) }
    ensures stops { IfFault result
        (λ found. walk_fault progress.old.count
        (spot_step spot.now.name.place (read_in scope.now counters.now spot.now) ∷ []) ≡ Some found) }
{
    progress.cells.clear();
    let read = scope
        .variables
        .read_spot(spot, counters, &mut progress.cells)?;
    let adds = progress.cells.len() as u64;
    progress.count = counted(progress.count, spot.name.place, adds, spot_fault(read))?;
    Ok(())
}

/// Walks a spot of a right side.
pub fn read(
    scope: &Scope<'_>,
    counters: &[Counter<'_>],
    progress: &mut Progress,
    spot: &Spot,
) -> Result<u32, Stop>
    ensures size { IfOk result (λ size. size ≡ length (read_in scope.now counters.now spot.now).cells) }
    ensures makes { IfOk result
        (λ size. Makes progress.old progress.new size
        (spot_step spot.now.name.place (read_in scope.now counters.now spot.now) ∷ [])
        (map (read_cell scope.now.variables) (read_in scope.now counters.now spot.now).cells)) }
    ensures stops { IfFault result
        (λ found. walk_fault progress.old.count
        (spot_step spot.now.name.place (read_in scope.now counters.now spot.now) ∷ []) ≡ Some found) }
{
    read_cells(scope, counters, progress, spot)?;
    push_reads(&mut progress.table, progress.cells.as_slice())?;
    Ok(progress.cells.len() as u32)
}
