// An order to try, made in linear time by counting what each instance still waits for. Nothing is proved of it: a scan
// takes along it only what is ready.
ghost use Rattle.std.specs.Prelude.{◌<◌, ◌^◌, length};

use std::alloc::{AllocError, Global};
use usuba_code::{Operation, Table};

// The instances that read each cell: those of a cell stand together, from its start up to that of the next cell.
#[derive(Drop)]
struct Readers {
    starts: Vec<usize>,
    instances: Vec<u32>,
}

// One more reader of a cell.
fn count_one(counts: &mut Vec<usize>, cell: u32) {
    if let Some(count) = counts.get_mut(cell as usize) {
        *count = count.wrapping_add(1);
    }
}

// How many times each cell is read.
fn count_reads(alloc: Global, table: &Table, cells: u32) -> Result<Vec<usize>, AllocError> {
    let mut counts = vec![in alloc; 0usize; cells as usize]?;
    for k in 0..table.len() {
        for operation in table.operations(k) {
            if let Operation::Cell(cell) = operation {
                count_one(&mut counts, *cell);
            }
        }
    }
    Ok(counts)
}

// In place of each count the sum up to it; answers the sum of all.
fn add_up(counts: &mut Vec<usize>) -> usize {
    let mut total = 0usize;
    for count in counts.iter_mut() {
        total = total.wrapping_add(*count);
        *count = total;
    }
    total
}

// Enters a reader of a cell before those that were entered.
fn enter(starts: &mut Vec<usize>, instances: &mut Vec<u32>, cell: u32, k: u32) {
    if let Some(start) = starts.get_mut(cell as usize) {
        *start = start.wrapping_sub(1);
        if let Some(reader) = instances.get_mut(*start) {
            *reader = k;
        }
    }
}

impl Readers {
    fn of(alloc: Global, table: &Table, cells: u32) -> Result<Readers, AllocError>
        requires { length table.now.done < 2 ^ 32 }
    {
        let mut starts = count_reads(alloc, table, cells)?;
        let total = add_up(&mut starts);
        let mut instances = vec![in alloc; 0u32; total]?;
        for k in 0..table.len() {
            for operation in table.operations(k) {
                if let Operation::Cell(cell) = operation {
                    enter(&mut starts, &mut instances, *cell, k as u32);
                }
            }
        }
        Ok(Readers { starts, instances })
    }

    // Where the readers of a cell start.
    fn start(&self, cell: usize) -> usize {
        self.starts
            .get(cell)
            .copied()
            .unwrap_or(self.instances.len())
    }
}

// How many cells that are no inputs code reads.
fn waits(code: &[Operation], inputs: u32) -> usize {
    let mut count = 0usize;
    for operation in code {
        if let Operation::Cell(cell) = operation {
            if *cell >= inputs {
                count = count.wrapping_add(1);
            }
        }
    }
    count
}

// An instance waits for one read fewer; whether this was the last.
fn was_last(waiting: &mut Vec<usize>, k: u32) -> bool {
    match waiting.get_mut(k as usize) {
        Some(count) => {
            let last = *count == 1;
            *count = count.saturating_sub(1);
            last
        }
        None => false,
    }
}

// A cell is assigned: instances that waited for nothing else come next.
fn release(
    readers: &Readers,
    cell: u32,
    waiting: &mut Vec<usize>,
    queue: &mut Vec<u32>,
) -> Result<(), AllocError> {
    let cell = cell as usize;
    for at in readers.start(cell)..readers.start(cell + 1) {
        if let Some(reader) = readers.instances.get(at) {
            if was_last(waiting, *reader) {
                queue.push(*reader)?;
            }
        }
    }
    Ok(())
}

// All cells of instance `k` are assigned.
fn release_all(
    table: &Table,
    k: usize,
    readers: &Readers,
    waiting: &mut Vec<usize>,
    queue: &mut Vec<u32>,
) -> Result<(), AllocError>
    requires { k < length table.now.done }
{
    for j in 0..table.targets(k) {
        for cell in table.cells(k, j) {
            release(readers, *cell, waiting, queue)?;
        }
    }
    Ok(())
}

// What each instance waits for, and in the queue those that wait for nothing.
fn begin(
    table: &Table,
    inputs: u32,
    waiting: &mut Vec<usize>,
    queue: &mut Vec<u32>,
) -> Result<(), AllocError>
    requires { length table.now.done < 2 ^ 32 }
{
    for k in 0..table.len() {
        let count = waits(table.operations(k), inputs);
        if count == 0 {
            queue.push(k as u32)?;
        }
        waiting.push(count)?;
    }
    Ok(())
}

// An order to try.
pub(crate) fn hint_of(
    alloc: Global,
    table: &Table,
    inputs: u32,
    cells: u32,
) -> Result<Vec<u32>, AllocError>
    requires { length table.now.done < 2 ^ 32 }
{
    let readers = Readers::of(alloc, table, cells)?;
    let mut waiting = Vec::new(alloc);
    let mut queue = Vec::new(alloc);
    begin(table, inputs, &mut waiting, &mut queue)?;
    for next in 0..table.len() {
        let Some(k) = queue.get(next).copied() else {
            break;
        };
        if (k as usize) < table.len() {
            release_all(table, k as usize, &readers, &mut waiting, &mut queue)?;
        }
    }
    Ok(queue)
}
