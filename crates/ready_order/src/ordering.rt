// An order in which each instance is ready in its turn.
ghost use Rattle.std.specs.Prelude.{◌≡◌, ◌<◌, ◌≤◌, ◌^◌, length, IfOk, OnOk};
ghost use Rattle.usuba_code.specs.Code.{coded_at};
ghost use Rattle.ready_order.specs.Numbered.{AreBelow, first_place};
ghost use Rattle.ready_order.specs.Ordering.{IsOrderOf};
ghost use Rattle.ready_order.specs.State.Scan.{progress, IsScan, IsSettled};

use crate::hint::hint_of;
use crate::scan::Scan;
use std::alloc::{AllocError, Global};
use tor_edge::Place;
use usuba_code::Table;
use usuba_model::{Fault, FaultKind};

/// What the search for an order answers.
#[derive(Drop)]
pub enum Order {
    /// The numbers of all instances, in an order in which each is ready in its turn.
    Ready(Vec<u32>),
    /// The fault of the first instance, in walk order, that never becomes ready.
    Stuck(Fault),
}

// Where instance `k` begins.
fn beginning_of(table: &Table, k: usize) -> Place
    requires { k < length table.now.done }
    ensures { result ≡ first_place (coded_at table.now.done k).targets }
{
    if table.targets(k) == 0 {
        return Place { line: 1, column: 1 };
    }
    table.place(k, 0)
}

// A scan that has gone over the instances once, in walk order.
fn begun_scan(alloc: Global, table: &Table, inputs: u32, cells: u32) -> Result<Scan, AllocError>
    requires few { length table.now.done < 2 ^ 32 }
    requires inputs { inputs ≤ cells }
    requires cells { AreBelow cells table.now.done }
    ensures { IfOk result (λ scan. IsScan inputs cells table.now.done (progress scan)) }
{
    let mut scan = Scan::new(alloc, table.len(), inputs, cells)?;
    let _moved = scan.pass(table)?;
    Ok(scan)
}

// Where instances are left, goes along an order that was made by counting.
fn follow_hint(
    alloc: Global,
    table: &Table,
    inputs: u32,
    cells: u32,
    scan: &mut Scan,
) -> Result<(), AllocError>
    requires few { length table.now.done < 2 ^ 32 }
    requires cells { AreBelow cells table.now.done }
    requires scan { IsScan inputs cells table.now.done (progress scan.old) }
    ensures { OnOk result (IsScan inputs cells table.now.done (progress scan.new)) }
{
    if scan.order.len() == table.len() {
        return Ok(());
    }
    let hint = hint_of(alloc, table, inputs, cells)?;
    scan.follow(table, hint.as_slice())?;
    Ok(())
}

// A scan after which no instance is open.
fn settled_scan(alloc: Global, table: &Table, inputs: u32, cells: u32) -> Result<Scan, AllocError>
    requires few { length table.now.done < 2 ^ 32 }
    requires inputs { inputs ≤ cells }
    requires cells { AreBelow cells table.now.done }
    ensures scan { IfOk result (λ scan. IsScan inputs cells table.now.done (progress scan)) }
    ensures settled { IfOk result (λ scan. IsSettled table.now.done (progress scan)) }
{
    let mut scan = begun_scan(alloc, table, inputs, cells)?;
    follow_hint(alloc, table, inputs, cells, &mut scan)?;
    scan.settle(table)?;
    Ok(scan)
}

/// An order in which each instance of a table is ready in its turn. The inputs are the cells below `inputs`, and all
/// cells are below `cells`.
pub fn order_of(alloc: Global, table: &Table, inputs: u32, cells: u32) -> Result<Order, AllocError>
    requires few { length table.now.done < 2 ^ 32 }
    requires inputs { inputs ≤ cells }
    requires cells { AreBelow cells table.now.done }
    ensures { IfOk result (λ order. IsOrderOf inputs table.now.done order) }
{
    let scan = settled_scan(alloc, table, inputs, cells)?;
    match scan.first_left() {
        None => Ok(Order::Ready(scan.order)),
        Some(k) => Ok(Order::Stuck(Fault {
            kind: FaultKind::Cyclic,
            place: beginning_of(table, k),
        })),
    }
}
