ghost use Rattle.std.specs.Prelude.{◌≡◌, OnOk};
ghost use Rattle.usuba_walk.specs.State.Progress.{with_code, with_cells, cell_code};

use std::alloc::AllocError;
use usuba_code::{Operation, Table};

/// Adds the code that reads cells.
pub fn push_reads(table: &mut Table, cells: &[u32]) -> Result<(), AllocError>
    ensures { OnOk result (table.new ≡ with_code table.old (cell_code cells.now)) }
{
    for cell in cells {
        table.push_operation(Operation::Cell(*cell))?;
    }
    Ok(())
}

/// Adds the cells of a left side.
pub fn push_cells(table: &mut Table, cells: &[u32]) -> Result<(), AllocError>
    ensures { OnOk result (table.new ≡ with_cells table.old cells.now) }
{
    for cell in cells {
        table.push_cell(*cell)?;
    }
    Ok(())
}
