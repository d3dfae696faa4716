ghost use Rattle.std.specs.Prelude.{◌≡◌, ◌+◌, ◌≤◌, [], ◌∷◌, map, length, Some, OnOk, IfOk};
ghost use Rattle.usuba_model.specs.Unrolled.{targets_of, target_cells};
ghost use Rattle.usuba_model.specs.Walk.{walk_fault, spot_step, left_steps, first_name as name_of};
ghost use Rattle.usuba_code.specs.Code.{assigned};
ghost use Rattle.usuba_cells.specs.Counters.{around};
ghost use Rattle.usuba_walk.specs.State.Progress.{IfFault, Takes, with_targets, with_instances, with_end, end_step};
ghost use Rattle.usuba_walk.specs.State.Scopes.{read_in, equation_steps_in, equation_coded_in, target_in};

use crate::count::counted;
use crate::expression::walk;
use crate::faults::when;
use crate::progress::Progress;
use crate::pushes::push_cells;
use crate::scope::Scope;
use crate::spots::read_cells;
use crate::stop::Stop;
use tor_edge::Place;
use usuba_cells::Counter;
use usuba_model::FaultKind;
use usuba_trees::{Equation, Spot};

// Walks a left side, and answers how many cells it holds.
fn walk_target(
    scope: &Scope<'_>,
    counters: &[Counter<'_>],
    progress: &mut Progress,
    spot: &Spot,
) -> Result<u32, Stop>
    ensures size { IfOk result (λ size. size ≡ length (read_in scope.now counters.now spot.now).cells) }
    ensures few { IfOk result (λ size. size + progress.old.count ≤ progress.new.count) }
    ensures takes { OnOk result
        (Takes progress.old progress.new
        (spot_step spot.now.name.place (read_in scope.now counters.now spot.now) ∷ [])
        (with_targets progress.old.table (target_in scope.now counters.now spot.now ∷ []))) }
    ensures stops { IfFault result
        (λ found. walk_fault progress.old.count
        (spot_step spot.now.name.place (read_in scope.now counters.now spot.now) ∷ []) ≡ Some found) }
{
    read_cells(scope, counters, progress, spot)?;
    push_cells(&mut progress.table, progress.cells.as_slice())?;
    progress.table.end_target(spot.name.place)?;
    Ok(progress.cells.len() as u32)
}

// Walks the left sides of an equation, and answers how many cells they hold.
fn walk_left(
    scope: &Scope<'_>,
    counters: &[Counter<'_>],
    progress: &mut Progress,
    left: &[Spot],
) -> Result<u32, Stop>
    ensures size { IfOk result (λ size. size ≡ length
        (target_cells (targets_of scope.now.variables (around counters.now) left.now))) }
    ensures takes { OnOk result
        (Takes progress.old progress.new (left_steps scope.now.variables (around counters.now) left.now)
        (with_targets progress.old.table
        (map (assigned scope.now.variables) (targets_of scope.now.variables (around counters.now) left.now)))) }
    ensures stops { IfFault result
        (λ found. walk_fault progress.old.count (left_steps scope.now.variables (around counters.now) left.now)
        ≡ Some found) }
{
    let mut size: u32 = 0;
    for spot in left {
        size += walk_target(scope, counters, progress, spot)?;
    }
    Ok(size)
}

// Where an equation begins: the first name of its left side.
fn first_name(equation: &Equation) -> Place
    ensures { result ≡ name_of equation.now.equal equation.now.left }
{
    match equation.left.as_slice() {
        [] => equation.equal,
        [first, ..] => first.name.place,
    }
}

// Takes the step of the sign `=`, where both sides have so many elements, and ends the instance.
fn end_equation(progress: &mut Progress, equal: Place, left: u32, right: u32) -> Result<(), Stop>
    ensures takes { OnOk result
        (Takes progress.old progress.new (end_step equal left right ∷ []) (with_end progress.old.table)) }
    ensures stops { IfFault result
        (λ found. walk_fault progress.old.count (end_step equal left right ∷ []) ≡ Some found) }
{
    let fault = when(left != right, FaultKind::SizeMismatch);
    progress.count = counted(progress.count, equal, 0, fault)?;
    progress.table.end_instance()?;
    Ok(())
}

/// Walks an equation instance.
pub fn walk_equation(
    scope: &Scope<'_>,
    counters: &[Counter<'_>],
    progress: &mut Progress,
    equation: &Equation,
) -> Result<(), Stop>
    ensures takes { OnOk result (Takes progress.old progress.new (equation_steps_in scope.now counters.now equation.now)
        (with_instances progress.old.table (equation_coded_in scope.now counters.now equation.now ∷ []))) }
    ensures stops { IfFault result
        (λ found. walk_fault progress.old.count (equation_steps_in scope.now counters.now equation.now)
        ≡ Some found) }
{
    progress.count = counted(progress.count, first_name(equation), 1, None)?;
    let left = walk_left(scope, counters, progress, equation.left.as_slice())?;
    let right = walk(scope, counters, progress, &equation.right)?;
    end_equation(progress, equation.equal, left, right)
}
