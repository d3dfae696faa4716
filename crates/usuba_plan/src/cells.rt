ghost use Rattle.std.specs.Prelude.{◌≡◌, ℕ, ◌+◌, ◌-◌, ◌<◌, ◌≤◌, ◌++◌, ◌∷◌, [], Some, Option, List, length, map, vec_len, IfOk, OnOk, IsSome};
ghost use Rattle.std.specs.List.{range_with_len};
ghost use Rattle.ready_order.specs.Numbered.{left_numbers};
ghost use Rattle.usuba_code.specs.Code.{coded_at};
ghost use Rattle.usuba_code.specs.CodeLaw.{Each};
ghost use Rattle.usuba_model.specs.Rounds.{whole, element_at, permuted};
ghost use Rattle.usuba_plan.specs.Made.{with_given};
ghost use Rattle.usuba_plan.specs.State.Handles.{handle_at};

use std::alloc::{AllocError, Global};
use usuba_code::Table;

/// So many cells, or as many as there are inputs if these are more: the inputs are the first, the others are not defined.
pub fn begin<H: Copy>(
    alloc: Global,
    cells: usize,
    inputs: &[H],
) -> Result<Vec<Option<H>>, AllocError>
    ensures inputs { IfOk result (λ environment. (cell : ℕ) → handle_at environment.items cell ≡ element_at inputs.now cell) }
    ensures cells { IfOk result (λ environment. cells ≤ length environment.items) }
{
    let mut environment: Vec<Option<H>> = inputs.iter().map(|input| Some(*input)).collect(alloc)?;
    environment.resize(cells.max(inputs.len()), None)?;
    Ok(environment)
}

// The handle at a cell that is defined.
fn read<H: Copy>(environment: &[Option<H>], cell: usize) -> H
    requires { IsSome (handle_at environment.now cell) }
    ensures { handle_at environment.now cell ≡ Some result }
{
    match environment[cell] {
        Some(handle) => handle,
        None => unreachable!(),
    }
}

/// Pushes the handle at a cell that is defined.
pub fn push_cell<H: Copy>(
    environment: &[Option<H>],
    cell: usize,
    stack: &mut Vec<H>,
) -> Result<(), AllocError>
    requires { IsSome (handle_at environment.now cell) }
    ensures { OnOk result ((h : H) × (handle_at environment.now cell ≡ Some h) × (stack.new.items ≡ stack.old.items ++ h ∷ [])) }
{
    stack.push(read(environment, cell))?;
    Ok(())
}

/// The handles at so many cells from one on, which are defined.
pub fn read_all<H: Copy>(
    alloc: Global,
    environment: &[Option<H>],
    from: u32,
    count: u32,
) -> Result<Vec<H>, AllocError>
    requires { IsSome (whole (map (handle_at environment.now) (range_with_len from count))) }
    ensures { IfOk result (λ found. whole (map (handle_at environment.now) (range_with_len from count)) ≡ Some found.items) }
{
    let mut found = Vec::new(alloc);
    for k in 0..count as usize {
        found.push(read(environment, from as usize + k))?;
    }
    Ok(found)
}

/// Each cell gets the handle at its place.
pub fn assign<H: Copy>(environment: &mut Vec<Option<H>>, cells: &[u32], handles: &[H])
    requires { Each (λ cell. cell < length environment.old.items) cells.now }
    ensures assigned { (cell : ℕ) → handle_at environment.new.items cell ≡ with_given cells.now handles.now (handle_at environment.old.items) cell }
    ensures as_many { length environment.new.items ≡ length environment.old.items }
{
    let count = cells.len().min(handles.len());
    // The first of the handles of a cell stays.
    for i in (0..count).rev() {
        environment[cells[i] as usize] = Some(handles[i]);
    }
}

/// The handles that entries count, from 1, of which each is one.
pub fn permute<H: Copy>(alloc: Global, entries: &[u64], handles: &[H]) -> Result<Vec<H>, AllocError>
    requires { IsSome (permuted entries.now handles.now) }
    ensures { IfOk result (λ found. permuted entries.now handles.now ≡ Some found.items) }
{
    let mut found = Vec::new(alloc);
    for entry in entries {
        found.push(pick(handles, *entry))?;
    }
    Ok(found)
}

// The handle that an entry counts.
fn pick<H: Copy>(handles: &[H], entry: u64) -> H
    requires { IsSome (element_at handles.now (entry - 1)) }
    ensures { element_at handles.now (entry - 1) ≡ Some result }
{
    handles[entry.saturating_sub(1) as usize]
}

/// The numbers of the cells that an instance assigns.
pub fn left_cells(alloc: Global, table: &Table, instance: usize) -> Result<Vec<u32>, AllocError>
    requires { instance < length table.now.done }
    ensures { IfOk result (λ cells. cells.items ≡ left_numbers (coded_at table.now.done instance)) }
{
    let mut cells = Vec::new(alloc);
    for j in 0..table.targets(instance) {
        cells.extend_from_slice(table.cells(instance, j))?;
    }
    Ok(cells)
}
