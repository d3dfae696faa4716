//! The calls of gadgets.
ghost use Rattle.std.specs.Prelude.{◌≡◌, ◌+◌, ◌<◌, ◌≤◌, [], ◌∷◌, length, All, IfOk};
ghost use Rattle.c_form.specs.MaskedForm as form;
ghost use Rattle.c_form.specs.Slots.{operands};
ghost use Rattle.usuba0.specs.Term.{word_of_constant};
ghost use Rattle.c_tree.specs.declared.CArg.TheVariants as argument;

use c_tree::{CArg, CCall};
use std::alloc::{AllocError, Global};
use tor_edge::{List, Name};
use usuba0::{Gate, Reg, constant_word};

/// Where registers live: how many inputs there are, and the slots of the equations.
#[derive(Clone, Copy)]
pub struct Rows<'a> {
    pub inputs: u32,
    pub places: &'a [u32],
}

/// The row of a register.
fn row_of(rows: Rows<'_>, register: Reg) -> CArg
    requires { register.0 < rows.inputs + length rows.places.now }
    ensures { result ≡ form.row_of rows.entry.inputs rows.entry.places.now register }
{
    if register.0 < rows.inputs {
        return CArg::Input(u64::from(register.0));
    }
    let made = (register.0 - rows.inputs) as usize;
    CArg::Slot(u64::from(rows.places[made]))
}

fn call(alloc: Global, name: &str, arguments: &[CArg]) -> Result<CCall, AllocError>
    ensures { IfOk result (λ made. made ≡ form.called name.now arguments.now) }
{
    let gadget = Name::of(alloc, name)?;
    let args = List::from_slice(alloc, arguments)?;
    Ok(CCall { gadget, args })
}

fn call_of_one(alloc: Global, name: &str, slot: u32, a: CArg) -> Result<CCall, AllocError>
    ensures { IfOk result (λ made. made ≡ form.called name.now (argument.Slot slot ∷ a ∷ [])) }
{
    call(alloc, name, &[CArg::Slot(u64::from(slot)), a])
}

fn call_of_two(alloc: Global, name: &str, slot: u32, a: CArg, b: CArg) -> Result<CCall, AllocError>
    ensures { IfOk result (λ made. made ≡ form.called name.now (argument.Slot slot ∷ a ∷ b ∷ [])) }
{
    call(alloc, name, &[CArg::Slot(u64::from(slot)), a, b])
}

/// The call of an equation that writes this slot.
pub fn equation_call(
    alloc: Global,
    width: u32,
    bits: u32,
    rows: Rows<'_>,
    slot: u32,
    gate: &Gate,
) -> Result<CCall, AllocError>
    requires registers { All (λ r. r < rows.inputs + length rows.places.now) (operands gate.now) }
    requires some { 0 < bits }
    requires fits { bits ≤ 64 }
    ensures { IfOk result (λ made. made
        ≡ form.equation_call width bits (form.row_of rows.entry.inputs rows.entry.places.now) slot gate.now) }
{
    match *gate {
        Gate::Const(c) => call_of_one(alloc, "g_const", slot, constant_of(width, bits, c)),
        Gate::Xor(a, b) => call_of_two(alloc, "g_xor", slot, row_of(rows, a), row_of(rows, b)),
        Gate::Not(a) => call_of_one(alloc, "g_not", slot, row_of(rows, a)),
        Gate::Mask(c, a) => call_of_two(
            alloc,
            "g_mask",
            slot,
            row_of(rows, a),
            constant_of(width, bits, c),
        ),
        Gate::And(a, b) => call_of_two(alloc, "g_and", slot, row_of(rows, a), row_of(rows, b)),
        Gate::Shl(k, a) => call_of_two(alloc, "g_shl", slot, row_of(rows, a), amount(k)),
        Gate::Shr(k, a) => call_of_two(alloc, "g_shr", slot, row_of(rows, a), amount(k)),
        Gate::Rotl(k, a) => call_of_two(alloc, "g_rotl", slot, row_of(rows, a), amount(k)),
        Gate::Refresh(a) => call_of_one(alloc, "g_refresh", slot, row_of(rows, a)),
    }
}

fn amount(k: u32) -> CArg
    ensures { result ≡ argument.Number k }
{
    CArg::Number(u64::from(k))
}

fn constant_of(width: u32, bits: u32, c: u64) -> CArg
    requires some { 0 < bits }
    requires fits { bits ≤ 64 }
    ensures { result ≡ argument.Number (word_of_constant width bits c) }
{
    CArg::Number(constant_word(width, bits, c))
}

/// The copy of a register into an output.
pub fn output_call(
    alloc: Global,
    rows: Rows<'_>,
    output: u64,
    register: Reg,
) -> Result<CCall, AllocError>
    requires { register.0 < rows.inputs + length rows.places.now }
    ensures { IfOk result (λ made. made
        ≡ form.output_call rows.entry.inputs rows.entry.places.now output register) }
{
    call(
        alloc,
        "g_copy",
        &[CArg::Out(output), row_of(rows, register)],
    )
}
