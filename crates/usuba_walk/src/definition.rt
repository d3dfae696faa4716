ghost use Rattle.std.specs.Prelude.{◌≡◌, ◌<◌, ◌≤◌, ◌++◌, [], ◌∷◌, Some, None, IfOk, MatchOption};
ghost use Rattle.usuba_model.specs.Shapes.{all_elements};
ghost use Rattle.usuba_model.specs.Unrolled.{declarations};
ghost use Rattle.usuba_model.specs.Walk.{walk_fault, count_of, declared_step, grid_steps, node_steps, definition_steps};
ghost use Rattle.usuba_code.specs.Code.{coded_node};
ghost use Rattle.usuba_walk.specs.State.Progress.{IfFault, IsAfter, with_done};
ghost use Rattle.usuba_walk.specs.Walking.{IsWalk, coded_definition};

use crate::count::{MOST_OPERATIONS, counted};
use crate::definitions::Definitions;
use crate::items::walk_items;
use crate::progress::Progress;
use crate::scope::Scope;
use crate::stop::Stop;
use std::alloc::{AllocError, Global};
use tor_edge::Place;
use usuba_cells::{Variables, count_elements};
use usuba_code::Table;
use usuba_model::{Fault, FaultKind};
use usuba_trees::{Decl, Def, Grid, Node};

/// What the walk through a definition comes to.
#[derive(Drop)]
pub enum Walked {
    /// The first fault of the walk.
    Fault(Fault),
    /// The walk has no fault.
    Whole {
        /// The count of operations.
        count: u32,
        /// The equation instances; none of a table or a permutation.
        table: Table,
    },
}

// How many elements two lists of variables have together, where these are no more than the operations that a source may have.
fn count_two(first: &[Decl], second: &[Decl]) -> Option<u32>
    ensures { MatchOption result (4194304 < all_elements (first.now ++ second.now))
        (λ count. (count ≡ all_elements (first.now ++ second.now)) × (count ≤ 4194304)) }
{
    let first = count_elements(first)?;
    let second = count_elements(second)?;
    let count = first + second;
    if count > MOST_OPERATIONS {
        None
    } else {
        Some(count)
    }
}

// The same of all variables of a node.
fn count_node(node: &Node) -> Option<u32>
    ensures { MatchOption result (4194304 < all_elements (declarations node.now))
        (λ count. (count ≡ all_elements (declarations node.now)) × (count ≤ 4194304)) }
{
    let first = count_two(node.inputs.as_slice(), node.outputs.as_slice())?;
    let second = count_elements(node.locals.as_slice())?;
    let count = first + second;
    if count > MOST_OPERATIONS {
        None
    } else {
        Some(count)
    }
}

// Begins a walk with the cells that a definition declares.
fn begin(alloc: Global, place: Place, elements: u32) -> Result<Progress, Stop>
    ensures after { IfOk result
        (λ progress. IsAfter progress (record { place = place; adds = elements; fault = None } ∷ []) []) }
    ensures stops { IfFault result
        (λ found. walk_fault 0 (record { place = place; adds = elements; fault = None } ∷ []) ≡ Some found) }
{
    let count = counted(0, place, u64::from(elements), None)?;
    Ok(Progress {
        count,
        table: Table::new(alloc),
        cells: Vec::new(alloc),
    })
}

// The fault of a definition that declares more cells than operations that a source may have.
fn too_many(place: Place) -> Stop
    ensures { result ≡ Stop.Fault (record { kind = FaultKind.TooManyOps; place = place }) }
{
    Stop::Fault(Fault {
        kind: FaultKind::TooManyOps,
        place,
    })
}

fn walk_grid(alloc: Global, grid: &Grid) -> Result<Progress, Stop>
    ensures after { IfOk result (λ progress. IsAfter progress (grid_steps grid.now) []) }
    ensures stops { IfFault result (λ found. walk_fault 0 (grid_steps grid.now) ≡ Some found) }
{
    match count_two(grid.inputs.as_slice(), grid.outputs.as_slice()) {
        Some(elements) => begin(alloc, grid.name.place, elements),
        None => Err(too_many(grid.name.place)),
    }
}

fn begin_node(alloc: Global, node: &Node) -> Result<Progress, Stop>
    ensures after { IfOk result
        (λ progress. IsAfter progress (declared_step node.now.name.place (declarations node.now) ∷ []) []) }
    ensures few { IfOk result (λ progress. all_elements (declarations node.now) ≤ 4194304) }
    ensures stops { IfFault result
        (λ found. walk_fault 0 (declared_step node.now.name.place (declarations node.now) ∷ []) ≡ Some found) }
{
    match count_node(node) {
        Some(elements) => begin(alloc, node.name.place, elements),
        None => Err(too_many(node.name.place)),
    }
}

fn walk_node(
    alloc: Global,
    width: u32,
    earlier: &Definitions<'_>,
    node: &Node,
) -> Result<Progress, Stop>
    ensures after { IfOk result
        (λ progress. IsAfter progress (node_steps width earlier.now node.now) (coded_node earlier.now node.now)) }
    ensures stops { IfFault result (λ found. walk_fault 0 (node_steps width earlier.now node.now) ≡ Some found) }
{
    let mut progress = begin_node(alloc, node)?;
    let variables = Variables::new(alloc, node)?;
    let scope = Scope {
        width,
        definitions: earlier,
        variables,
    };
    let mut counters = Vec::new(alloc);
    walk_items(&scope, &mut counters, &mut progress, node.items.as_slice())?;
    Ok(progress)
}

fn walk_def(
    alloc: Global,
    width: u32,
    earlier: &Definitions<'_>,
    definition: &Def,
) -> Result<Progress, Stop>
    ensures after { IfOk result
        (λ progress. IsAfter progress (definition_steps width earlier.now definition.now)
        (coded_definition earlier.now definition.now)) }
    ensures stops { IfFault result
        (λ found. walk_fault 0 (definition_steps width earlier.now definition.now) ≡ Some found) }
{
    match definition {
        Def::Node(node) => walk_node(alloc, width, earlier, node),
        Def::Table(grid) | Def::Perm(grid) => walk_grid(alloc, grid),
    }
}

/// Walks a definition at a width, after these earlier definitions: its first fault, or its count and its equation instances.
///
/// An instance stands in the table with its cells by their numbers over the node's inputs, outputs and locals in order, and
/// its calls by the numbers of the earlier definitions.
pub fn walk_definition(
    alloc: Global,
    width: u32,
    earlier: &Definitions<'_>,
    definition: &Def,
) -> Result<Walked, AllocError>
    ensures { IfOk result (IsWalk width earlier.now definition.now) }
{
    match walk_def(alloc, width, earlier, definition) {
        Ok(progress) => Ok(Walked::Whole {
            count: progress.count,
            table: progress.table,
        }),
        Err(Stop::Fault(fault)) => Ok(Walked::Fault(fault)),
        Err(Stop::Memory(error)) => Err(error),
    }
}
