//! What a line says, or its fault.
ghost use Rattle.std.specs.Prelude.{◌≡◌, ◌==◌, ◌≤◌, true, None, Some, map, MatchOption};
ghost use Rattle.std.specs.List.{list_all};
ghost use Rattle.core_text.specs.Forms as forms;
ghost use Rattle.core_text.specs.Parts.{answer_kept, kept, kept_gate, IsAnswer};
ghost use Rattle.core_text.specs.Ranges as ranges;
ghost use Rattle.core_text.specs.Reading as reading;
ghost use Rattle.text_lines.specs.Numbers as numbers;

use crate::fault::CoreFault;
use crate::operand::{is_register, register, register_number};
use crate::right_side::right_side;
use std::alloc::Global;
use text_lines::{Words, is_number, is_word, number_below};
use usuba0::{Gate, Reg};

// The number after a keyword.
fn number_form<'a>(keyword: &str, mut words: Words<'a>) -> Option<&'a [u8]>
    ensures { MatchOption result (forms.number_form keyword.now words.entry ≡ None) (λ number.
        (forms.number_form keyword.now words.entry ≡ Some (numbers.value_of number.now)) × (numbers.is_number number.now ≡ true)) }
{
    let name = words.next_word()?;
    let number = words.next_word()?;
    if words.next_word().is_some() || !is_word(name, keyword) || !is_number(number) {
        return None;
    }
    Some(number)
}

pub(crate) fn width_line(line: u64, words: Words<'_>) -> Result<u32, CoreFault>
    ensures { result ≡ reading.width_line line words.entry }
{
    let number = number_form("width", words).ok_or(CoreFault::Syntax(line))?;
    match number_below(number, 65) {
        Some(width) if width > 0 => Ok(width),
        _ => Err(CoreFault::OutOfRange(line)),
    }
}

pub(crate) fn inputs_line(line: u64, words: Words<'_>) -> Result<u32, CoreFault>
    ensures { result ≡ reading.inputs_line line words.entry }
{
    let number = number_form("inputs", words).ok_or(CoreFault::Syntax(line))?;
    match number_below(number, 1 << 32) {
        Some(inputs) if inputs > 0 => Ok(inputs),
        _ => Err(CoreFault::OutOfRange(line)),
    }
}

/// Whether the line is that of the outputs, by its first word.
pub(crate) fn is_outputs(mut words: Words<'_>) -> bool
    ensures { result ≡ forms.is_outputs words.entry }
{
    match words.next_word() {
        Some(name) => is_word(name, "outputs"),
        None => false,
    }
}

/// The right side of the equation that makes register `next`.
pub(crate) fn equation_line(
    width: u32,
    next: u64,
    line: u64,
    mut words: Words<'_>,
) -> Result<Gate, CoreFault>
    requires { width ≤ 64 }
    ensures { result ≡ answer_kept kept_gate (reading.equation_line width next line words.entry) }
{
    let left = left_side(&mut words).ok_or(CoreFault::Syntax(line))?;
    let gate = right_side(width, next, line, words)?;
    if !is_next(left, next) {
        return Err(CoreFault::OutOfRange(line));
    }
    Ok(gate)
}

// Whether a register has this number.
fn is_next(word: &[u8], next: u64) -> bool
    requires { forms.is_register word.now ≡ true }
    ensures { result ≡ ((forms.register_of word.now).0 == next) }
{
    register_number(word) == Some(next)
}

// The register before `=`.
fn left_side<'a>(words: &mut Words<'a>) -> Option<&'a [u8]>
    ensures { MatchOption result (forms.equation_form words.old ≡ None) (λ left.
        (forms.equation_form words.old ≡ forms.with_gate (forms.register_of left.now) (forms.gate_form words.new))
        × (forms.is_register left.now ≡ true)) }
{
    let left = words.next_word()?;
    let equals = words.next_word()?;
    if !is_register(left) || !is_word(equals, "=") {
        return None;
    }
    Some(left)
}

fn are_registers(mut words: Words<'_>) -> bool
    ensures { result ≡ list_all forms.is_register words.entry }
{
    while let Some(word) = words.next_word() {
        if !is_register(word) {
            return false;
        }
    }
    true
}

// The registers of the line of the outputs, of which there is one or more.
fn outputs_form<'a>(mut words: Words<'a>) -> Option<Words<'a>>
    ensures { MatchOption result (forms.outputs_form words.entry ≡ None) (λ registers.
        (forms.outputs_form words.entry ≡ Some (map forms.register_of registers)) × (list_all forms.is_register registers ≡ true)) }
{
    let name = words.next_word()?;
    if !is_word(name, "outputs") || !are_registers(words.copy()) {
        return None;
    }
    if words.copy().next_word().is_none() {
        return None;
    }
    Some(words)
}

pub(crate) fn outputs_line(
    alloc: Global,
    next: u64,
    line: u64,
    words: Words<'_>,
) -> Result<Vec<Reg>, CoreFault>
    ensures { IsAnswer (λ registers. registers.items) result (answer_kept (map kept) (reading.outputs_line next line words.entry)) }
{
    let registers = outputs_form(words).ok_or(CoreFault::Syntax(line))?;
    earlier_registers(alloc, next, line, registers)
}

fn earlier_registers(
    alloc: Global,
    next: u64,
    line: u64,
    mut words: Words<'_>,
) -> Result<Vec<Reg>, CoreFault>
    requires { list_all forms.is_register words ≡ true }
    ensures { IsAnswer (λ registers. registers.items) result
        (answer_kept (map kept) (reading.said_in_range line (Some (map forms.register_of words.entry)) (ranges.are_outputs next))) }
{
    let mut registers = Vec::new(alloc);
    while let Some(word) = words.next_word() {
        registers.push(register(next, line, word)?)?;
    }
    Ok(registers)
}
