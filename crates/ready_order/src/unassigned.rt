// The first declared variable with a cell that is never assigned.
ghost use Rattle.std.specs.Prelude.{◌≡◌, ◌+◌, ◌<◌, ◌≤◌, ◌^◌, false, length, slice_range, IfOk};
ghost use Rattle.usuba_model.specs.declared.fault.FaultKind.TheVariants.{Unassigned};
ghost use Rattle.usuba_model.specs.Faults.{first_of};
ghost use Rattle.usuba_model.specs.Shapes.{all_elements};
ghost use Rattle.usuba_model.specs.Unrolled.{declarations};
ghost use Rattle.usuba_model.specs.Walk.{most_operations};
ghost use Rattle.ready_order.specs.Numbered.{AreBelow};
ghost use Rattle.ready_order.specs.NumberedLaws.{unassigned_numbered};
ghost use Rattle.ready_order.specs.Uses.{IsUsedBy};
ghost use Rattle.ready_order.specs.State.Lacking.{lacking, place_lacking, place_unassigned};

use crate::uses::Uses;
use std::alloc::{AllocError, Global};
use tor_edge::Place;
use usuba_cells::count_elements;
use usuba_code::Table;
use usuba_model::{Fault, FaultKind};
use usuba_trees::{Decl, Node};

// How many elements the declaration at `k` has.
fn own_elements(declared: &[Decl], k: usize) -> u32
    requires within { k < length declared.now }
    requires few { all_elements declared.now ≤ most_operations }
    ensures { result ≡ all_elements (slice_range declared.now k (k + 1)) }
{
    count_of(&declared[k..k + 1])
}

// Whether an output or a local lacks an assigned cell.
fn lacks(uses: &Uses, is_local: bool, first: u32, count: u32) -> bool
    requires { first + count < 2 ^ 32 }
    ensures { result ≡ lacking uses.now is_local first count }
{
    if is_local {
        uses.lacks_read(first, count)
    } else {
        uses.lacks_assigned(first, count)
    }
}

// The place of the first variable that lacks an assigned cell; the cells of the first variable begin at `first`.
fn first_lacking(uses: &Uses, is_local: bool, first: u32, declared: &[Decl]) -> Option<Place>
    requires few { all_elements declared.now ≤ most_operations }
    requires room { first + all_elements declared.now < 2 ^ 32 }
    ensures { result ≡ place_lacking (lacking uses.now is_local) first declared.now }
{
    let mut from = first;
    for k in 0..declared.len() {
        let declaration = &declared[k];
        let count = own_elements(declared, k);
        if lacks(uses, is_local, from, count) {
            return Some(declaration.name.place);
        }
        from += count;
    }
    None
}

// How many elements some declared variables have.
fn count_of(declared: &[Decl]) -> u32
    requires { all_elements declared.now ≤ most_operations }
    ensures { result ≡ all_elements declared.now }
{
    count_elements(declared).unwrap()
}

// The first output, or else the first local, that lacks an assigned cell.
fn place_of(uses: &Uses, node: &Node) -> Option<Place>
    requires { all_elements (declarations node.now) ≤ most_operations }
    ensures { result ≡ place_unassigned uses.now node.now }
{
    let outputs = count_of(node.inputs.as_slice());
    match first_lacking(uses, false, outputs, node.outputs.as_slice()) {
        Some(place) => Some(place),
        None => {
            let locals = outputs + count_of(node.outputs.as_slice());
            first_lacking(uses, true, locals, node.locals.as_slice())
        }
    }
}

/// The fault of the first output of which a cell is not assigned, or else of the first local of which a cell is read and not
/// assigned. All cells of the table are elements of the node's variables.
pub fn first_unassigned(
    alloc: Global,
    table: &Table,
    node: &Node,
) -> Result<Option<Fault>, AllocError>
    requires few { all_elements (declarations node.now) ≤ most_operations }
    requires cells { AreBelow (all_elements (declarations node.now)) table.now.done }
    ensures { IfOk result (λ fault. fault ≡ first_of Unassigned (unassigned_numbered node.now table.now.done)) }
{
    let uses = uses_of(alloc, table, node)?;
    match place_of(&uses, node) {
        Some(place) => Ok(Some(Fault {
            kind: FaultKind::Unassigned,
            place,
        })),
        None => Ok(None),
    }
}

// The cells that the instances of a node assign and read.
fn uses_of(alloc: Global, table: &Table, node: &Node) -> Result<Uses, AllocError>
    requires few { all_elements (declarations node.now) ≤ most_operations }
    requires cells { AreBelow (all_elements (declarations node.now)) table.now.done }
    ensures { IfOk result (λ uses. IsUsedBy table.now.done uses) }
{
    let inputs = count_of(node.inputs.as_slice());
    let outputs = count_of(node.outputs.as_slice());
    let locals = count_of(node.locals.as_slice());
    Uses::of(alloc, table, inputs + outputs + locals)
}
