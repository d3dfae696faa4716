//! The right side of an equation.
ghost use Rattle.std.specs.Prelude.{◌≡◌, ◌≤◌, ◌&&◌, ℕ, true, Ok, Err, if◌then◌else◌};
ghost use Rattle.core_text.specs.Forms as forms;
ghost use Rattle.core_text.specs.Parts.{answer_kept, kept, kept_gate};
ghost use Rattle.core_text.specs.Ranges.{is_gate, is_amount, is_earlier};
ghost use Rattle.core_text.specs.Reading.{said_in_range};
ghost use Rattle.text_lines.specs.Numbers as numbers;

use crate::fault::CoreFault;
use crate::operand::{amount, constant, is_register, register};
use text_lines::{Words, is_number, is_word};
use usuba0::{Gate, Reg};

/// What the right side of the equation says that makes register `next`.
pub(crate) fn right_side(
    width: u32,
    next: u64,
    line: u64,
    mut words: Words<'_>,
) -> Result<Gate, CoreFault>
    requires { width ≤ 64 }
    ensures { result ≡ answer_kept kept_gate (said_in_range line (forms.gate_form words.entry) (is_gate width next)) }
{
    let name = words.next_word().ok_or(CoreFault::Syntax(line))?;
    let first = words.next_word().ok_or(CoreFault::Syntax(line))?;
    let Some(second) = words.next_word() else {
        return one_operand(width, next, line, name, first);
    };
    if words.next_word().is_some() {
        return Err(CoreFault::Syntax(line));
    }
    two_operands(width, next, line, name, first, second)
}

fn one_operand(width: u32, next: u64, line: u64, name: &[u8], a: &[u8]) -> Result<Gate, CoreFault>
    requires { width ≤ 64 }
    ensures { result ≡ answer_kept kept_gate (said_in_range line (forms.one_form name.now a.now) (is_gate width next)) }
{
    if is_register(a) {
        single(next, line, name, a)
    } else if is_number(a) && is_word(name, "const") {
        Ok(Gate::Const(constant(width, line, a)?))
    } else {
        Err(CoreFault::Syntax(line))
    }
}

fn single(next: u64, line: u64, name: &[u8], a: &[u8]) -> Result<Gate, CoreFault>
    requires { forms.is_register a.now ≡ true }
    ensures { (width : ℕ) → result ≡ answer_kept kept_gate (said_in_range line (forms.single_gate name.now (forms.register_of a.now)) (is_gate width next)) }
{
    if is_word(name, "not") {
        Ok(Gate::Not(register(next, line, a)?))
    } else if is_word(name, "refresh") {
        Ok(Gate::Refresh(register(next, line, a)?))
    } else {
        Err(CoreFault::Syntax(line))
    }
}

fn two_operands(
    width: u32,
    next: u64,
    line: u64,
    name: &[u8],
    a: &[u8],
    b: &[u8],
) -> Result<Gate, CoreFault>
    requires { width ≤ 64 }
    ensures { result ≡ answer_kept kept_gate (said_in_range line (forms.two_form name.now a.now b.now) (is_gate width next)) }
{
    if !is_register(b) {
        Err(CoreFault::Syntax(line))
    } else if is_register(a) {
        pair(next, line, name, a, b)
    } else if is_number(a) {
        numbered(width, next, line, name, a, b)
    } else {
        Err(CoreFault::Syntax(line))
    }
}

fn pair(next: u64, line: u64, name: &[u8], a: &[u8], b: &[u8]) -> Result<Gate, CoreFault>
    requires a { forms.is_register a.now ≡ true }
    requires b { forms.is_register b.now ≡ true }
    ensures { (width : ℕ) → result ≡ answer_kept kept_gate
        (said_in_range line (forms.pair_gate name.now (forms.register_of a.now) (forms.register_of b.now)) (is_gate width next)) }
{
    if is_word(name, "xor") {
        Ok(Gate::Xor(register(next, line, a)?, register(next, line, b)?))
    } else if is_word(name, "and") {
        Ok(Gate::And(register(next, line, a)?, register(next, line, b)?))
    } else {
        Err(CoreFault::Syntax(line))
    }
}

fn numbered(
    width: u32,
    next: u64,
    line: u64,
    name: &[u8],
    number: &[u8],
    a: &[u8],
) -> Result<Gate, CoreFault>
    requires fits { width ≤ 64 }
    requires number { numbers.is_number number.now ≡ true }
    requires a { forms.is_register a.now ≡ true }
    ensures { result ≡ answer_kept kept_gate
        (said_in_range line (forms.numbered_gate name.now (numbers.value_of number.now) (forms.register_of a.now)) (is_gate width next)) }
{
    if is_word(name, "mask") {
        let mask = constant(width, line, number)?;
        Ok(Gate::Mask(mask, register(next, line, a)?))
    } else {
        shift(width, next, line, name, number, a)
    }
}

fn shift(
    width: u32,
    next: u64,
    line: u64,
    name: &[u8],
    number: &[u8],
    a: &[u8],
) -> Result<Gate, CoreFault>
    requires number { numbers.is_number number.now ≡ true }
    requires a { forms.is_register a.now ≡ true }
    ensures { result ≡ answer_kept kept_gate
        (said_in_range line (forms.shift_gate name.now (numbers.value_of number.now) (forms.register_of a.now)) (is_gate width next)) }
{
    if is_word(name, "shl") {
        let (amount, register) = shifted(width, next, line, number, a)?;
        Ok(Gate::Shl(amount, register))
    } else if is_word(name, "shr") {
        let (amount, register) = shifted(width, next, line, number, a)?;
        Ok(Gate::Shr(amount, register))
    } else if is_word(name, "rotl") {
        let (amount, register) = shifted(width, next, line, number, a)?;
        Ok(Gate::Rotl(amount, register))
    } else {
        Err(CoreFault::Syntax(line))
    }
}

// The amount and the register of a shift.
fn shifted(
    width: u32,
    next: u64,
    line: u64,
    number: &[u8],
    a: &[u8],
) -> Result<(u32, Reg), CoreFault>
    requires number { numbers.is_number number.now ≡ true }
    requires a { forms.is_register a.now ≡ true }
    ensures { result ≡ (if is_amount width (numbers.value_of number.now) && is_earlier next (forms.register_of a.now)
        then Ok (numbers.value_of number.now, kept (forms.register_of a.now)) else Err (CoreFault.OutOfRange line)) }
{
    let amount = amount(width, line, number)?;
    Ok((amount, register(next, line, a)?))
}
