// Marks by cell.
ghost use Rattle.std.specs.Prelude.{◌≡◌, ◌<◌, ◌≤◌, length, replicate, false, option_to_list, IfOk};
ghost use Rattle.usuba_code.specs.Code.{coded_at};
ghost use Rattle.ready_order.specs.Numbered.{input_numbers, left_numbers, number_read, numbers_read};
ghost use Rattle.ready_order.specs.State.Marks.{is_marked, marked, all_marked, has_marked, reads_marked};

use std::alloc::{AllocError, Global};
use usuba_code::{Operation, Table};

// Whether a cell is marked.
pub(crate) fn is_set(marks: &Vec<bool>, cell: u32) -> bool
    ensures { result ≡ is_marked marks.now.items cell }
{
    marks.get(cell as usize).copied().unwrap_or(false)
}

// Marks a cell.
pub(crate) fn set(marks: &mut Vec<bool>, cell: u32)
    ensures { marks.new.items ≡ marked marks.old.items cell }
{
    let cell = cell as usize;
    if cell < marks.len() {
        marks[cell] = true;
    }
}

// The cell that an operation reads.
fn cell_read(operation: &Operation) -> Option<u32>
    ensures { option_to_list result ≡ number_read operation.now }
{
    match operation {
        Operation::Cell(cell) => Some(*cell),
        _ => None,
    }
}

// Marks these cells. Whether one was marked before, or stands twice.
pub(crate) fn mark_all(marks: &mut Vec<bool>, cells: &[u32]) -> bool
    ensures again { result ≡ has_marked marks.old.items cells.now }
    ensures marked { marks.new.items ≡ all_marked marks.old.items cells.now }
{
    let mut again = false;
    for cell in cells {
        again |= is_set(marks, *cell);
        set(marks, *cell);
    }
    again
}

// Marks the cells that instance `k` assigns.
pub(crate) fn mark_left(table: &Table, k: usize, marks: &mut Vec<bool>)
    requires { k < length table.now.done }
    ensures { marks.new.items ≡ all_marked marks.old.items (left_numbers (coded_at table.now.done k)) }
{
    for j in 0..table.targets(k) {
        let _again = mark_all(marks, table.cells(k, j));
    }
}

// Marks the cells that code reads.
pub(crate) fn mark_read(code: &[Operation], marks: &mut Vec<bool>)
    ensures { marks.new.items ≡ all_marked marks.old.items (numbers_read code.now) }
{
    for operation in code {
        if let Some(cell) = cell_read(operation) {
            set(marks, cell);
        }
    }
}

// Whether code reads marked cells only.
pub(crate) fn reads_known(code: &[Operation], marks: &Vec<bool>) -> bool
    ensures { result ≡ reads_marked marks.now.items code.now }
{
    for operation in code {
        if let Some(cell) = cell_read(operation) {
            if !is_set(marks, cell) {
                return false;
            }
        }
    }
    true
}

// Marks for so many cells, of which the inputs are marked.
pub(crate) fn input_marks(alloc: Global, inputs: u32, cells: u32) -> Result<Vec<bool>, AllocError>
    ensures { IfOk result (λ marks. marks.items ≡ all_marked (replicate cells false) (input_numbers inputs)) }
{
    let mut marks = vec![in alloc; false; cells as usize]?;
    for cell in 0..inputs {
        set(&mut marks, cell);
    }
    Ok(marks)
}
