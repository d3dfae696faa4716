ghost use Rattle.std.specs.Prelude.{◌≡◌, ◌<◌, ◌≤◌, ◌^◌, length, IfOk};
ghost use Rattle.usuba_model.specs.Faults.{either, first_of};
ghost use Rattle.usuba_model.specs.Names.{declared_in};
ghost use Rattle.usuba_model.specs.Shapes.{all_elements};
ghost use Rattle.usuba_model.specs.Unrolled.{declarations};
ghost use Rattle.usuba_model.specs.Walk.{most_operations};
ghost use Rattle.ready_order.specs.Numbered.{AreBelow, twice_numbered, cyclic_numbered};
ghost use Rattle.ready_order.specs.NumberedLaws.{unassigned_numbered};
ghost use Rattle.usuba_types.specs.State.Passing.{kept_numbered, kept_after_numbered};

use crate::counts::count;
use ready_order::{Order, first_twice, first_unassigned, order_of};
use std::alloc::{AllocError, Global};
use usuba_code::Table;
use usuba_model::{Fault, FaultKind};
use usuba_trees::{Def, Node};

/// The first fault of each of the seventh, eighth and ninth phases, as far as definitions were looked at.
#[derive(Clone, Copy, Drop)]
pub struct FirstFaults {
    pub twice: Option<Fault>,
    pub unassigned: Option<Fault>,
    pub cyclic: Option<Fault>,
}

/// The first of two faults.
pub fn first(fault: Option<Fault>, later: Option<Fault>) -> Option<Fault>
    ensures { result ≡ either fault later }
{
    match fault {
        Some(fault) => Some(fault),
        None => later,
    }
}

fn keep_twice(
    alloc: Global,
    kept: Option<Fault>,
    table: &Table,
    inputs: u32,
    cells: u32,
) -> Result<Option<Fault>, AllocError>
    requires inputs { inputs ≤ cells }
    requires cells { AreBelow cells table.now.done }
    ensures { IfOk result (λ fault. fault ≡ either kept (first_of FaultKind.AssignedTwice (twice_numbered inputs table.now.done))) }
{
    match kept {
        Some(fault) => Ok(Some(fault)),
        None => first_twice(alloc, table, inputs, cells),
    }
}

fn keep_unassigned(
    alloc: Global,
    kept: Option<Fault>,
    table: &Table,
    node: &Node,
) -> Result<Option<Fault>, AllocError>
    requires few { all_elements (declarations node.now) ≤ most_operations }
    requires cells { AreBelow (all_elements (declarations node.now)) table.now.done }
    ensures { IfOk result (λ fault. fault ≡ either kept (first_of FaultKind.Unassigned (unassigned_numbered node.now table.now.done))) }
{
    match kept {
        Some(fault) => Ok(Some(fault)),
        None => first_unassigned(alloc, table, node),
    }
}

// The first instance that never becomes ready.
fn first_cyclic(
    alloc: Global,
    table: &Table,
    inputs: u32,
    cells: u32,
) -> Result<Option<Fault>, AllocError>
    requires instances { length table.now.done < 2 ^ 32 }
    requires inputs { inputs ≤ cells }
    requires cells { AreBelow cells table.now.done }
    ensures { IfOk result (λ fault. fault ≡ first_of FaultKind.Cyclic (cyclic_numbered inputs table.now.done)) }
{
    match order_of(alloc, table, inputs, cells)? {
        Order::Ready(_) => Ok(None),
        Order::Stuck(fault) => Ok(Some(fault)),
    }
}

fn keep_cyclic(
    alloc: Global,
    kept: Option<Fault>,
    table: &Table,
    inputs: u32,
    cells: u32,
) -> Result<Option<Fault>, AllocError>
    requires instances { length table.now.done < 2 ^ 32 }
    requires inputs { inputs ≤ cells }
    requires cells { AreBelow cells table.now.done }
    ensures { IfOk result (λ fault. fault ≡ either kept (first_of FaultKind.Cyclic (cyclic_numbered inputs table.now.done))) }
{
    match kept {
        Some(fault) => Ok(Some(fault)),
        None => first_cyclic(alloc, table, inputs, cells),
    }
}

// The first faults after a node of this table.
fn keep_of_node(
    alloc: Global,
    kept: FirstFaults,
    table: &Table,
    node: &Node,
) -> Result<FirstFaults, AllocError>
    requires instances { length table.now.done < 2 ^ 32 }
    requires few { all_elements (declarations node.now) ≤ most_operations }
    requires cells { AreBelow (all_elements (declarations node.now)) table.now.done }
    ensures { IfOk result (λ after. after ≡ kept_numbered kept node.now table.now.done) }
{
    let inputs = count(node.inputs.as_slice());
    let cells = inputs + count(node.outputs.as_slice()) + count(node.locals.as_slice());
    let twice = keep_twice(alloc, kept.twice, table, inputs, cells)?;
    let unassigned = keep_unassigned(alloc, kept.unassigned, table, node)?;
    let cyclic = keep_cyclic(alloc, kept.cyclic, table, inputs, cells)?;
    Ok(FirstFaults {
        twice,
        unassigned,
        cyclic,
    })
}

/// The first faults after a definition of this table; a table or a permutation has none of these.
pub fn keep_first(
    alloc: Global,
    kept: FirstFaults,
    table: &Table,
    definition: &Def,
) -> Result<FirstFaults, AllocError>
    requires instances { length table.now.done < 2 ^ 32 }
    requires few { all_elements (declared_in definition.now) ≤ most_operations }
    requires cells { AreBelow (all_elements (declared_in definition.now)) table.now.done }
    ensures { IfOk result (λ after. after ≡ kept_after_numbered kept definition.now table.now.done) }
{
    match definition {
        Def::Node(node) => keep_of_node(alloc, kept, table, node),
        Def::Table(_) | Def::Perm(_) => Ok(kept),
    }
}
