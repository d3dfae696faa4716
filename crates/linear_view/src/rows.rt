// The rows of registers, as bits over the columns of a circuit.
ghost use Rattle.std.specs.Prelude.{◌≡◌, ◌≢◌, ℕ, ◌+◌, ◌<◌, ◌≤◌, ◌^◌, ◌++◌, ◌∷◌, [], false, length, map, vec_len, slice_index, slice_index_or, slice_get, replicate, IfOk, IfSome, OnOk};
ghost use Rattle.std.specs.Bool.{OnTrue};
ghost use Rattle.std.specs.List.{range_with_len};
ghost use Rattle.std.specs.Option.{option_to_list, option_copied};
ghost use Rattle.usuba0.specs.Circuit.{IsEquation};
ghost use Rattle.linear_view.specs.Names.{bits};
ghost use Rattle.linear_view.specs.Rows.{RegisterRows, own_row, input_rows, gate_row, gate_rows, gate_product, rows_over, operands_over, Names};
ghost use Rattle.linear_view.specs.Walk.{HoldsOperands, HoldsNeeds, IsReadAfter, KeepsLater};

use crate::column::{Column, ColumnKind};
use crate::seen::{Seen, key_of};
use crate::shared_rows::SharedRows;
use crate::view::Pair;
use crate::walk::{Stage, reads};
use gf2_span::{BitRow, copy_rows};
use indexmap::IndexSet;
use std::alloc::{AllocError, Global};
use std::mem;
use tor_edge::List;
use usuba0::{Gate, Reg};

// The rows of the inputs, with room for so many registers.
pub(crate) fn input_registers(
    alloc: Global,
    columns: &IndexSet<Column>,
    width: u32,
    inputs: u32,
    room: usize,
) -> Result<Vec<List<BitRow>>, AllocError>
    requires { length columns.now.keys < 2 ^ 32 }
    ensures { IfOk result (λ registers. registers.items ≡ map (λ i. rows_over columns.now.keys (input_rows width i)) (range_with_len 0 inputs)) }
{
    let mut registers = Vec::with_capacity(alloc, room)?;
    for number in 0..inputs {
        registers.push(own_rows(alloc, columns, width, number)?)?;
    }
    Ok(registers)
}

// The rows of one input.
fn own_rows(
    alloc: Global,
    columns: &IndexSet<Column>,
    width: u32,
    number: u32,
) -> Result<List<BitRow>, AllocError>
    requires { length columns.now.keys < 2 ^ 32 }
    ensures { IfOk result (λ rows. rows ≡ rows_over columns.now.keys (input_rows width number)) }
{
    let mut rows = List::new(alloc);
    for bit in 0..width {
        rows.push(own_row(alloc, columns, ColumnKind::Input, number, bit)?)?;
    }
    Ok(rows)
}

// The row of one column.
fn own_row(
    alloc: Global,
    columns: &IndexSet<Column>,
    kind: ColumnKind,
    number: u32,
    bit: u32,
) -> Result<BitRow, AllocError>
    requires { length columns.now.keys < 2 ^ 32 }
    ensures { IfOk result (λ row. row ≡ map (own_row kind number bit) columns.now.keys) }
{
    let mut row = BitRow::new(alloc, columns.len() as u32)?;
    if let Some(c) = columns.get_index_of(&Column { kind, number, bit }) {
        row.flip(c as u32);
    }
    Ok(row)
}

// Puts the rows of the register that the equation makes behind those of the others, and drops the rows of registers that nothing reads any more.
pub(crate) fn push_register(
    alloc: Global,
    columns: &IndexSet<Column>,
    stage: Stage,
    last_reads: &[usize],
    registers: &mut Vec<List<BitRow>>,
    gate: &Gate,
) -> Result<(), AllocError>
    requires few { length columns.now.keys < 2 ^ 32 }
    requires width { stage.width ≤ 64 }
    requires gate { IsEquation stage.width (vec_len registers.old) gate.now }
    requires held { IsReadAfter last_reads.now (vec_len registers.old) stage.equations
        → (all : RegisterRows) × HoldsNeeds columns.now.keys all registers.old.items gate.now }
    requires known { vec_len registers.old < length last_reads.now }
    ensures { OnOk result ((all : RegisterRows)
        → (IsReadAfter last_reads.now (vec_len registers.old) stage.equations → HoldsNeeds columns.now.keys all registers.old.items gate.now)
        → let made = rows_over columns.now.keys (gate_rows stage.width stage.products stage.refreshes all gate.now) in
        KeepsLater last_reads.now stage.equations (registers.old.items ++ made ∷ []) registers.new.items) }
{
    let is_read = stage.equations < last_reads[registers.len()];
    let rows = rows_if_read(alloc, columns, stage, registers.as_slice(), gate, is_read)?;
    registers.push(rows)?;
    let (first, second) = reads(gate);
    release_read(alloc, registers, last_reads, stage.equations, first);
    release_read(alloc, registers, last_reads, stage.equations, second);
    Ok(())
}

// The rows of the register that the equation makes, or none where it is not read.
fn rows_if_read(
    alloc: Global,
    columns: &IndexSet<Column>,
    stage: Stage,
    registers: &[List<BitRow>],
    gate: &Gate,
    is_read: bool,
) -> Result<List<BitRow>, AllocError>
    requires few { length columns.now.keys < 2 ^ 32 }
    requires width { stage.width ≤ 64 }
    requires gate { IsEquation stage.width (length registers.now) gate.now }
    requires held { OnTrue is_read ((all : RegisterRows) × HoldsNeeds columns.now.keys all registers.now gate.now) }
    ensures { IfOk result (λ rows. OnTrue is_read ((all : RegisterRows) → HoldsNeeds columns.now.keys all registers.now gate.now
        → rows ≡ rows_over columns.now.keys (gate_rows stage.width stage.products stage.refreshes all gate.now))) }
{
    if is_read {
        gate_rows(alloc, columns, stage, registers, gate)
    } else {
        Ok(List::new(alloc))
    }
}

// Drops the rows of the register that equation `k` reads, if there is one and no later equation reads it.
fn release_read(
    alloc: Global,
    registers: &mut Vec<List<BitRow>>,
    last_reads: &[usize],
    k: usize,
    register: Option<Reg>,
)
    requires known { IfSome register (λ a. a.0 < length last_reads.now) }
    requires held { IfSome register (λ a. a.0 < vec_len registers.old) }
    ensures rows { KeepsLater last_reads.now k registers.old.items registers.new.items }
    ensures count { vec_len registers.new ≡ vec_len registers.old }
{
    if let Some(a) = register {
        release(alloc, registers, last_reads, k, a.0 as usize);
    }
}

// Drops the rows of the register if no equation after number `k` reads it.
fn release(
    alloc: Global,
    registers: &mut Vec<List<BitRow>>,
    last_reads: &[usize],
    k: usize,
    register: usize,
)
    requires known { register < length last_reads.now }
    requires held { register < vec_len registers.old }
    ensures rows { KeepsLater last_reads.now k registers.old.items registers.new.items }
    ensures count { vec_len registers.new ≡ vec_len registers.old }
{
    if last_reads[register] <= k {
        registers[register] = List::new(alloc);
    }
}

// The rows of the register that the equation makes.
fn gate_rows(
    alloc: Global,
    columns: &IndexSet<Column>,
    stage: Stage,
    registers: &[List<BitRow>],
    gate: &Gate,
) -> Result<List<BitRow>, AllocError>
    requires few { length columns.now.keys < 2 ^ 32 }
    requires width { stage.width ≤ 64 }
    requires gate { IsEquation stage.width (length registers.now) gate.now }
    requires held { (all : RegisterRows) × HoldsNeeds columns.now.keys all registers.now gate.now }
    ensures { IfOk result (λ rows. (all : RegisterRows) → HoldsNeeds columns.now.keys all registers.now gate.now
        → rows ≡ rows_over columns.now.keys (gate_rows stage.width stage.products stage.refreshes all gate.now)) }
{
    let mut rows = List::from_vec(Vec::with_capacity(alloc, stage.width as usize)?);
    for bit in 0..stage.width {
        rows.push(gate_row(alloc, columns, stage, registers, gate, bit)?)?;
    }
    Ok(rows)
}

// The row of one bit of it.
fn gate_row(
    alloc: Global,
    columns: &IndexSet<Column>,
    stage: Stage,
    registers: &[List<BitRow>],
    gate: &Gate,
    bit: u32,
) -> Result<BitRow, AllocError>
    requires few { length columns.now.keys < 2 ^ 32 }
    requires width { stage.width ≤ 64 }
    requires bit { bit < stage.width }
    requires gate { IsEquation stage.width (length registers.now) gate.now }
    requires held { (all : RegisterRows) × HoldsNeeds columns.now.keys all registers.now gate.now }
    ensures { IfOk result (λ row. (all : RegisterRows) → HoldsNeeds columns.now.keys all registers.now gate.now
        → row ≡ map (gate_row stage.width stage.products stage.refreshes all gate.now bit) columns.now.keys) }
{
    let empty = columns.len() as u32;
    match *gate {
        Gate::Const(_) => BitRow::new(alloc, empty),
        Gate::Xor(a, b) => {
            let mut row = copy_of(alloc, empty, registers, a, bit)?;
            if let Some(other) = row_of(registers, b, bit) {
                row.add(other);
            }
            Ok(row)
        }
        Gate::Not(a) => copy_of(alloc, empty, registers, a, bit),
        Gate::Mask(c, a) => {
            if (c >> bit) & 1 == 1 {
                copy_of(alloc, empty, registers, a, bit)
            } else {
                BitRow::new(alloc, empty)
            }
        }
        Gate::And(_, _) => own_row(alloc, columns, ColumnKind::Product, stage.products, bit),
        Gate::Shl(k, a) => {
            if bit < k {
                BitRow::new(alloc, empty)
            } else {
                copy_of(alloc, empty, registers, a, bit - k)
            }
        }
        Gate::Shr(k, a) => copy_of(alloc, empty, registers, a, bit + k),
        Gate::Rotl(k, a) => copy_of(
            alloc,
            empty,
            registers,
            a,
            (bit + (stage.width - k)) % stage.width,
        ),
        Gate::Refresh(_) => own_row(alloc, columns, ColumnKind::Refresh, stage.refreshes, bit),
    }
}

// The row of a bit of a register, if there is one.
fn row_of<'a>(registers: &'a [List<BitRow>], register: Reg, bit: u32) -> Option<&'a BitRow>
    ensures { option_copied result ≡ slice_get (slice_index_or registers.now register.0 []) bit }
{
    registers.get(register.0 as usize)?.get(bit as usize)
}

// A copy of the row of a bit of a register, or an empty row where there is none.
fn copy_of(
    alloc: Global,
    columns: u32,
    registers: &[List<BitRow>],
    register: Reg,
    bit: u32,
) -> Result<BitRow, AllocError>
    ensures { IfOk result (λ row. row ≡ slice_index_or (slice_index_or registers.now register.0 []) bit (replicate columns false)) }
{
    match row_of(registers, register, bit) {
        Some(row) => row.copy(alloc),
        None => BitRow::new(alloc, columns),
    }
}

// The rows of both operands of the equation, if it is a product. Rows that are new, and that no later equation reads, are moved
// out of the registers.
pub(crate) fn pair_of(
    alloc: Global,
    last_reads: &[usize],
    k: usize,
    registers: &mut Vec<List<BitRow>>,
    seen: &mut Seen,
    gate: &Gate,
) -> Result<Option<Pair>, AllocError>
    requires gate { (width : ℕ) × IsEquation width (vec_len registers.old) gate.now }
    requires known { vec_len registers.old ≤ length last_reads.now }
    ensures pair { IfOk result (λ pair. (columns : Names) (all : RegisterRows) → HoldsOperands columns all registers.old.items gate.now
        → option_to_list pair ≡ map (operands_over columns) (gate_product all gate.now)) }
    ensures kept { OnOk result (KeepsLater last_reads.now k registers.old.items registers.new.items) }
    ensures needs { OnOk result ((columns : Names) (all : RegisterRows) → HoldsNeeds columns all registers.old.items gate.now
        → HoldsNeeds columns all registers.new.items gate.now) }
{
    match *gate {
        Gate::And(a, b) => {
            let left = shared(alloc, last_reads, k, registers, seen, a)?;
            let right = if a.0 == b.0 {
                left.share()?
            } else {
                shared(alloc, last_reads, k, registers, seen, b)?
            };
            Ok(Some(Pair::new(left, right)))
        }
        _ => Ok(None),
    }
}

// The rows of a register, held together with equal ones that were seen. The register keeps them where an equation after number
// `k` reads it.
fn shared(
    alloc: Global,
    last_reads: &[usize],
    k: usize,
    registers: &mut Vec<List<BitRow>>,
    seen: &mut Seen,
    register: Reg,
) -> Result<SharedRows, AllocError>
    requires known { register.0 < length last_reads.now }
    requires held { register.0 < vec_len registers.old }
    ensures rows { IfOk result (λ rows. rows ≡ slice_index_or registers.old.items register.0 []) }
    ensures kept { KeepsLater last_reads.now k registers.old.items registers.new.items }
    ensures others { (r : ℕ) → r ≢ register.0
        → slice_index_or registers.new.items r [] ≡ slice_index_or registers.old.items r [] }
{
    let held = registers[register.0 as usize].as_slice();
    let key = key_of(held);
    if let Some(rows) = seen.find(key, held)? {
        return Ok(rows);
    }
    let mut rows = SharedRows::new(alloc, taken(alloc, last_reads, k, registers, register)?)?;
    seen.note(key, &mut rows)?;
    Ok(rows)
}

// A copy of the rows of a register.
fn copied(
    alloc: Global,
    registers: &Vec<List<BitRow>>,
    register: Reg,
) -> Result<List<BitRow>, AllocError>
    requires { register.0 < vec_len registers.now }
    ensures { IfOk result (λ rows. rows ≡ slice_index_or registers.now.items register.0 []) }
{
    let rows = copy_rows(alloc, registers[register.0 as usize].as_slice())?;
    Ok(List::from_vec(rows))
}

// The rows of a register, which keeps them where an equation after number `k` reads it.
fn taken(
    alloc: Global,
    last_reads: &[usize],
    k: usize,
    registers: &mut Vec<List<BitRow>>,
    register: Reg,
) -> Result<List<BitRow>, AllocError>
    requires known { register.0 < length last_reads.now }
    requires held { register.0 < vec_len registers.old }
    ensures rows { IfOk result (λ rows. rows ≡ slice_index_or registers.old.items register.0 []) }
    ensures kept { KeepsLater last_reads.now k registers.old.items registers.new.items }
    ensures others { (r : ℕ) → r ≢ register.0
        → slice_index_or registers.new.items r [] ≡ slice_index_or registers.old.items r [] }
{
    if k < last_reads[register.0 as usize] {
        return copied(alloc, registers, register);
    }
    let rows = mem::replace(&mut registers[register.0 as usize], List::new(alloc));
    Ok(rows)
}
