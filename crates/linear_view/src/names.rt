// The columns of a circuit, in order.
ghost use Rattle.std.specs.Prelude.{◌≡◌, ◌+◌, ◌<◌, ◌^◌, ◌++◌, length, IfOk, OnOk, [], ◌∷◌, if◌then◌else◌};
ghost use Rattle.linear_view.specs.Names.{own_columns, input_columns, gate_columns, equation_columns};
ghost use Rattle.linear_view.specs.Walk.{IsNewName, HoldsNeeded};
ghost use Rattle.linear_view.specs.declared.column.ColumnKind.TheVariants as column;

use crate::column::{Column, ColumnKind};
use crate::walk::Stage;
use indexmap::IndexSet;
use std::alloc::{AllocError, Global};
use usuba0::Gate;

// The columns of the inputs, and then those of the products and refreshes in the order of the equations.
pub(crate) fn columns_of(
    alloc: Global,
    width: u32,
    inputs: u32,
    gates: &[Gate],
) -> Result<IndexSet<Column>, AllocError>
    requires { length gates.now < 2 ^ 32 }
    ensures { IfOk result (λ columns. columns.keys
        ≡ input_columns width inputs ++ equation_columns width 0 0 gates.now) }
{
    let mut columns = columns_of_inputs(alloc, width, inputs)?;
    let mut stage = Stage::first(width);
    for gate in gates {
        add_gate_columns(&mut columns, stage, gate)?;
        stage = stage.after(gate);
    }
    Ok(columns)
}

// The columns of the inputs, and those of the products and refreshes whose registers are read later.
pub(crate) fn needed_columns(
    alloc: Global,
    width: u32,
    inputs: u32,
    gates: &[Gate],
    last_reads: &[usize],
) -> Result<IndexSet<Column>, AllocError>
    requires few { length gates.now < 2 ^ 32 }
    requires known { length last_reads.now ≡ inputs + length gates.now }
    ensures { IfOk result (λ columns. HoldsNeeded width inputs gates.now last_reads.now columns.keys) }
{
    let mut columns = columns_of_inputs(alloc, width, inputs)?;
    let mut stage = Stage::first(width);
    for gate in gates {
        let is_read = stage.equations < last_reads[inputs as usize + stage.equations];
        add_if_read(&mut columns, stage, gate, is_read)?;
        stage = stage.after(gate);
    }
    Ok(columns)
}

// The columns of the inputs.
fn columns_of_inputs(alloc: Global, width: u32, inputs: u32) -> Result<IndexSet<Column>, AllocError>
    ensures { IfOk result (λ columns. columns.keys ≡ input_columns width inputs) }
{
    let mut columns = IndexSet::new(alloc);
    for number in 0..inputs {
        add_columns(&mut columns, width, ColumnKind::Input, number)?;
    }
    Ok(columns)
}

// Adds the columns of the equation's own, if its register is read.
fn add_if_read(
    columns: &mut IndexSet<Column>,
    stage: Stage,
    gate: &Gate,
    is_read: bool,
) -> Result<(), AllocError>
    requires product { IsNewName column.Product stage.products columns.old.keys }
    requires refresh { IsNewName column.Refresh stage.refreshes columns.old.keys }
    ensures { OnOk result (columns.new.keys
        ≡ columns.old.keys ++ (if is_read then gate_columns stage.width stage.products stage.refreshes gate.now else [])) }
{
    if is_read {
        return add_gate_columns(columns, stage, gate);
    }
    Ok(())
}

// Adds the columns of the equation's own.
fn add_gate_columns(
    columns: &mut IndexSet<Column>,
    stage: Stage,
    gate: &Gate,
) -> Result<(), AllocError>
    requires product { IsNewName column.Product stage.products columns.old.keys }
    requires refresh { IsNewName column.Refresh stage.refreshes columns.old.keys }
    ensures { OnOk result (columns.new.keys
        ≡ columns.old.keys ++ gate_columns stage.width stage.products stage.refreshes gate.now) }
{
    match gate {
        Gate::And(_, _) => add_columns(columns, stage.width, ColumnKind::Product, stage.products),
        Gate::Refresh(_) => add_columns(columns, stage.width, ColumnKind::Refresh, stage.refreshes),
        _ => Ok(()),
    }
}

// Adds a column for each bit.
fn add_columns(
    columns: &mut IndexSet<Column>,
    width: u32,
    kind: ColumnKind,
    number: u32,
) -> Result<(), AllocError>
    requires { IsNewName kind number columns.old.keys }
    ensures { OnOk result (columns.new.keys ≡ columns.old.keys ++ own_columns width kind number) }
{
    for bit in 0..width {
        columns.insert(Column { kind, number, bit })?;
    }
    Ok(())
}
