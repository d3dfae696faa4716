//! The view of a circuit, and the rows of its registers.
ghost use Rattle.std.specs.Prelude.{◌≡◌, ◌+◌, ◌*◌, ◌<◌, ◌≤◌, length, map, IfOk};
ghost use Rattle.usuba0.specs.Circuit as circuit;
ghost use Rattle.linear_view.specs.Names.{core_columns};
ghost use Rattle.linear_view.specs.NarrowView.{IsNarrowView};
ghost use Rattle.linear_view.specs.Rows.{core_view, core_products, core_rows, operands_over, rows_at, rows_over};
ghost use Rattle.linear_view.specs.Walk.{TellsLastReads};

use crate::column::Column;
use crate::names::{columns_of, needed_columns};
use crate::rows::{input_registers, pair_of, push_register};
use crate::seen::Seen;
use crate::view::{Pair, View};
use crate::walk::{Stage, needed_reads};
use gf2_span::BitRow;
use indexmap::IndexSet;
use std::alloc::{AllocError, Global};
use tor_edge::List;
use usuba0::{Core, Gate, Reg};

/// The columns of the circuit, and the rows of the operands of its products over these.
pub fn view_of(alloc: Global, core: &Core) -> Result<View, AllocError>
    requires columns { (core.now.inputs + circuit.products_of core.now.equations + circuit.refreshes_of core.now.equations) * core.now.width ≤ 32768 }
    requires registers { length core.now.equations * core.now.width ≤ 131072 }
    ensures { IfOk result (λ view. view ≡ core_view core.now) }
{
    let gates = core.equation_slice();
    let columns = columns_of(alloc, core.width(), core.inputs(), gates)?;
    let last = needed_reads(alloc, core.width(), core.inputs(), gates, None)?;
    let products = product_operands(alloc, core, &columns, gates, last.as_slice())?;
    View::new(alloc, columns, products)
}

/// A view of the circuit over those of its columns alone that the operands of its products can hold, and those of its inputs.
pub fn narrow_view(alloc: Global, core: &Core) -> Result<View, AllocError>
    requires columns { (core.now.inputs + circuit.products_of core.now.equations + circuit.refreshes_of core.now.equations) * core.now.width ≤ 32768 }
    requires registers { length core.now.equations * core.now.width ≤ 131072 }
    ensures { IfOk result (λ view. IsNarrowView core.now view) }
{
    let gates = core.equation_slice();
    let width = core.width();
    let inputs = core.inputs();
    let last = needed_reads(alloc, width, inputs, gates, None)?;
    let needed = needed_columns(alloc, width, inputs, gates, last.as_slice())?;
    let products = product_operands(alloc, core, &needed, gates, last.as_slice())?;
    View::new(alloc, needed, products)
}

/// The rows of a register of the circuit, that of bit 0 first, over the columns of the circuit's view.
pub fn rows_of(alloc: Global, core: &Core, reg: Reg) -> Result<List<BitRow>, AllocError>
    requires columns { (core.now.inputs + circuit.products_of core.now.equations + circuit.refreshes_of core.now.equations) * core.now.width ≤ 32768 }
    requires registers { length core.now.equations * core.now.width ≤ 131072 }
    requires register { reg.0 < circuit.registers core.now }
    ensures { IfOk result (λ rows. rows ≡ rows_over (core_columns core.now) (rows_at (core_rows core.now) reg)) }
{
    let gates = core.equation_slice();
    let columns = columns_of(alloc, core.width(), core.inputs(), gates)?;
    register_rows(alloc, core, &columns, gates, reg)
}

// The rows of one register.
fn register_rows(
    alloc: Global,
    core: &Core,
    columns: &IndexSet<Column>,
    gates: &[Gate],
    register: Reg,
) -> Result<List<BitRow>, AllocError>
    requires gates { gates.now ≡ core.now.equations }
    requires few_inputs { core.now.inputs ≤ 32768 }
    requires few_columns { length columns.now.keys ≤ 32768 }
    requires few_gates { length gates.now ≤ 131072 }
    requires register { register.0 < circuit.registers core.now }
    ensures { IfOk result (λ rows. rows ≡ rows_over columns.now.keys (rows_at (core_rows core.now) register)) }
{
    let width = core.width();
    let inputs = core.inputs();
    let last = needed_reads(alloc, width, inputs, gates, Some(register))?;
    let mut registers = input_registers(alloc, columns, width, inputs, last.len())?;
    let mut stage = Stage::first(width);
    for gate in gates {
        push_register(alloc, columns, stage, last.as_slice(), &mut registers, gate)?;
        stage = stage.after(gate);
    }
    Ok(registers.swap_remove(register.0 as usize))
}

// The rows of the operands of the products, in order.
fn product_operands(
    alloc: Global,
    core: &Core,
    columns: &IndexSet<Column>,
    gates: &[Gate],
    last_reads: &[usize],
) -> Result<Vec<Pair>, AllocError>
    requires gates { gates.now ≡ core.now.equations }
    requires few_inputs { core.now.inputs ≤ 32768 }
    requires few_columns { length columns.now.keys ≤ 32768 }
    requires few_gates { length gates.now ≤ 131072 }
    requires told { TellsLastReads core.now.inputs gates.now last_reads.now }
    ensures { IfOk result (λ products. products.items ≡ map (operands_over columns.now.keys) (core_products core.now)) }
{
    let width = core.width();
    let inputs = core.inputs();
    let mut registers = input_registers(alloc, columns, width, inputs, last_reads.len())?;
    let mut stage = Stage::first(width);
    let mut seen = Seen::new(alloc);
    let mut products = Vec::with_capacity(alloc, core.products() as usize)?;
    for gate in gates {
        if let Some(pair) = pair_of(
            alloc,
            last_reads,
            stage.equations,
            &mut registers,
            &mut seen,
            gate,
        )? {
            products.push(pair)?;
        }
        push_register(alloc, columns, stage, last_reads, &mut registers, gate)?;
        stage = stage.after(gate);
    }
    Ok(products)
}
