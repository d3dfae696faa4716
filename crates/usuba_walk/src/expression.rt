ghost use Rattle.std.specs.Prelude.{◌≡◌, Some, IfOk};
ghost use Rattle.usuba_model.specs.Walk.{walk_fault};
ghost use Rattle.usuba_walk.specs.State.Progress.{IfFault, Takes, with_code};
ghost use Rattle.usuba_walk.specs.State.Scopes.{walked_in, walked_parts_in, links_steps_in, links_code_in, IsWalkedIn};

use crate::leaves::{call, complement, number, operator, refresh, walk_moves};
use crate::progress::Progress;
use crate::scope::Scope;
use crate::spots::read;
use crate::stop::Stop;
use usuba_cells::Counter;
use usuba_trees::{BitOp, Expr, Link};

/// Walks an expression, and answers how many elements its value has.
#[cycle(expressions)]
pub fn walk(
    scope: &Scope<'_>,
    counters: &[Counter<'_>],
    progress: &mut Progress,
    expression: &Expr,
) -> Result<u32, Stop>
    ensures walked { IfOk result
        (λ size. IsWalkedIn scope.now progress.old progress.new size
        (walked_in scope.now counters.now expression.now)) }
    ensures stops { IfFault result
        (λ found. walk_fault progress.old.count (walked_in scope.now counters.now expression.now).steps
        ≡ Some found) }
{
    match expression {
        Expr::Number { place, value } => number(scope.width, progress, *place, *value),
        Expr::Spot(spot) => read(scope, counters, progress, spot),
        Expr::Tuple(parts) => walk_parts(scope, counters, progress, parts.as_slice()),
        Expr::Call { name, args } => {
            let given = walk_parts(scope, counters, progress, args.as_slice())?;
            call(scope.definitions, progress, name, given)
        }
        Expr::Not { place, inner } => {
            let size = walk(scope, counters, progress, inner.get())?;
            complement(progress, *place, size)
        }
        Expr::Chain { op, first, rest } => {
            let size = walk(scope, counters, progress, first.get())?;
            walk_links(scope, counters, progress, *op, size, rest.as_slice())
        }
        Expr::Shift { first, moves } => {
            let size = walk(scope, counters, progress, first.get())?;
            walk_moves(scope.width, counters, progress, size, moves.as_slice())
        }
        Expr::Refresh {
            place,
            inner,
            number,
        } => {
            let size = walk(scope, counters, progress, inner.get())?;
            refresh(counters, progress, *place, size, number)
        }
    }
}

// Walks expressions whose values stand one after another.
#[cycle(expressions)]
fn walk_parts(
    scope: &Scope<'_>,
    counters: &[Counter<'_>],
    progress: &mut Progress,
    parts: &[Expr],
) -> Result<u32, Stop>
    ensures walked { IfOk result
        (λ size. IsWalkedIn scope.now progress.old progress.new size
        (walked_parts_in scope.now counters.now parts.now)) }
    ensures stops { IfFault result
        (λ found. walk_fault progress.old.count (walked_parts_in scope.now counters.now parts.now).steps
        ≡ Some found) }
{
    let mut size: u32 = 0;
    for part in parts {
        size += walk(scope, counters, progress, part)?;
    }
    Ok(size)
}

// Walks the further operands of a chain whose first has so many elements.
#[cycle(expressions)]
fn walk_links(
    scope: &Scope<'_>,
    counters: &[Counter<'_>],
    progress: &mut Progress,
    op: BitOp,
    size: u32,
    links: &[Link],
) -> Result<u32, Stop>
    ensures size { IfOk result (λ made. made ≡ size) }
    ensures takes { IfOk result
        (λ made. Takes progress.old progress.new (links_steps_in scope.now counters.now op size links.now)
        (with_code progress.old.table (links_code_in scope.now counters.now op size links.now))) }
    ensures stops { IfFault result
        (λ found. walk_fault progress.old.count (links_steps_in scope.now counters.now op size links.now)
        ≡ Some found) }
{
    for link in links {
        let operand = walk(scope, counters, progress, &link.operand)?;
        operator(progress, op, link.place, size, operand)?;
    }
    Ok(size)
}
