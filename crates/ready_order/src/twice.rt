// The first left side that assigns what is an input or was assigned before.
ghost use Rattle.std.specs.Prelude.{◌≡◌, ◌<◌, ◌≤◌, None, length, IfOk};
ghost use Rattle.usuba_model.specs.declared.fault.FaultKind.TheVariants.{AssignedTwice};
ghost use Rattle.usuba_model.specs.Faults.{first_of};
ghost use Rattle.usuba_code.specs.Code.{coded_at};
ghost use Rattle.ready_order.specs.Numbered.{left_numbers, AreBelow, twice_numbered};
ghost use Rattle.ready_order.specs.State.Marks.{all_marked, first_marked};

use crate::marks::{input_marks, mark_all};
use std::alloc::{AllocError, Global};
use tor_edge::Place;
use usuba_code::Table;
use usuba_model::{Fault, FaultKind};

// The first left side of instance `k` that holds a marked cell, or a cell twice. The cells of all are marked where there
// is none.
fn first_again(table: &Table, k: usize, marks: &mut Vec<bool>) -> Option<Place>
    requires { k < length table.now.done }
    ensures found { result ≡ first_marked marks.old.items (coded_at table.now.done k).targets }
    ensures marked { result ≡ None → marks.new.items ≡ all_marked marks.old.items (left_numbers (coded_at table.now.done k)) }
{
    for j in 0..table.targets(k) {
        if mark_all(marks, table.cells(k, j)) {
            return Some(table.place(k, j));
        }
    }
    None
}

/// The fault of the first left side, in walk order, that holds an input's cell, a cell that was assigned before, or a
/// cell twice. The inputs are the cells below `inputs`, and all cells are below `cells`.
pub fn first_twice(
    alloc: Global,
    table: &Table,
    inputs: u32,
    cells: u32,
) -> Result<Option<Fault>, AllocError>
    requires inputs { inputs ≤ cells }
    requires cells { AreBelow cells table.now.done }
    ensures { IfOk result (λ fault. fault ≡ first_of AssignedTwice (twice_numbered inputs table.now.done)) }
{
    let mut marks = input_marks(alloc, inputs, cells)?;
    for k in 0..table.len() {
        match first_again(table, k, &mut marks) {
            Some(place) => {
                return Ok(Some(Fault {
                    kind: FaultKind::AssignedTwice,
                    place,
                }));
            }
            None => {}
        }
    }
    Ok(None)
}
