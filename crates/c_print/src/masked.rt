ghost use Rattle.std.specs.Prelude.{◌≡◌, ◌+◌, ◌<◌, ◌≤◌, length, All, IfOk};
ghost use Rattle.usuba0.specs.Circuit.{AreEquations};
ghost use Rattle.c_form.specs.MaskedForm as form;
ghost use Rattle.c_print.specs.WordSize.{FitsWidth, FitsWord, bits_of_c};

use crate::call::{Rows, equation_call, output_call};
use c_template::template_gadgets;
use c_tree::{CCall, CFile};
use core_slots::slots_of;
use std::alloc::{AllocError, Global};
use tor_edge::List;
use usuba0::{Core, Gate, Reg, all_ones, word_bits};

/// The masked form of a core, for words of as many bits as are asked for, and else of the word bits of its width.
pub fn masked_file(alloc: Global, core: &Core, word: Option<u32>) -> Result<CFile, AllocError>
    requires { FitsWord word core.now }
    ensures { IfOk result (form.IsMaskedForm core.now (bits_of_c word core.now.width)) }
{
    let bits = bits_for(core.width(), word);
    let slots = slots_of(alloc, core)?;
    let gadgets = template_gadgets(alloc, all_ones(bits), u64::from(bits))?;
    let calls = calls_of(alloc, core, bits, slots.places.as_slice())?;
    Ok(CFile {
        reg_bits: reg_size(bits),
        gadgets,
        outputs: core.outputs(),
        inputs: core.inputs(),
        slots: slots.count,
        calls,
    })
}

// What is asked for, and else the word bits of the width.
fn bits_for(width: u32, word: Option<u32>) -> u32
    requires some_width { 0 < width }
    requires width_fits { width ≤ 64 }
    requires asked { FitsWidth word width }
    ensures value { result ≡ bits_of_c word width }
    ensures some { 0 < result }
    ensures fits { result ≤ 64 }
{
    match word {
        Some(bits) => bits,
        None => word_bits(width),
    }
}

// The bits of the C type for words of so many bits.
fn reg_size(bits: u32) -> u32
    ensures { result ≡ form.reg_size bits }
{
    if bits <= 8 {
        8
    } else if bits <= 16 {
        16
    } else if bits <= 32 {
        32
    } else {
        64
    }
}

// A call for each equation, then a copy for each output.
fn calls_of(
    alloc: Global,
    core: &Core,
    bits: u32,
    places: &[u32],
) -> Result<List<CCall>, AllocError>
    requires slots { length places.now ≡ length core.now.equations }
    requires some { 0 < bits }
    requires fits { bits ≤ 64 }
    ensures { IfOk result (λ calls. calls ≡ form.calls_of core.now bits places.now) }
{
    let rows = Rows {
        inputs: core.inputs(),
        places,
    };
    let mut calls = equation_calls(alloc, core.width(), bits, rows, core.equation_slice())?;
    calls.append(output_calls(alloc, rows, core.output_slice())?)?;
    Ok(calls)
}

fn equation_calls(
    alloc: Global,
    width: u32,
    bits: u32,
    rows: Rows<'_>,
    gates: &[Gate],
) -> Result<List<CCall>, AllocError>
    requires equations { AreEquations width rows.inputs gates.now }
    requires slots { length rows.places.now ≡ length gates.now }
    requires some { 0 < bits }
    requires fits { bits ≤ 64 }
    ensures { IfOk result (λ calls. calls
        ≡ form.equation_calls width bits rows.entry.inputs rows.entry.places.now 0 gates.now) }
{
    let mut calls = List::new(alloc);
    for (k, gate) in gates.iter().enumerate() {
        let call = equation_call(alloc, width, bits, rows, rows.places[k], gate)?;
        calls.push(call)?;
    }
    Ok(calls)
}

fn output_calls(alloc: Global, rows: Rows<'_>, registers: &[Reg]) -> Result<List<CCall>, AllocError>
    requires { All (λ r. r.0 < rows.inputs + length rows.places.now) registers.now }
    ensures { IfOk result (λ calls. calls ≡ form.output_calls rows.entry.inputs rows.entry.places.now 0 registers.now) }
{
    let mut calls = List::new(alloc);
    for (k, register) in registers.iter().enumerate() {
        let call = output_call(alloc, rows, k as u64, *register)?;
        calls.push(call)?;
    }
    Ok(calls)
}
