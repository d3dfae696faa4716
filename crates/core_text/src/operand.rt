//! The operands of an equation: registers and numbers.
ghost use Rattle.std.specs.Prelude.{◌≡◌, ◌<◌, ◌≤◌, ◌^◌, true, Ok, Err, nat_lt, if◌then◌else◌};
ghost use Rattle.std.specs.Option.{SomeIff};
ghost use Rattle.core_text.specs.Forms as forms;
ghost use Rattle.core_text.specs.Parts.{kept};
ghost use Rattle.core_text.specs.Ranges as ranges;
ghost use Rattle.text_lines.specs.Numbers as numbers;

use crate::fault::CoreFault;
use text_lines::{is_number, number_below, number_value};
use usuba0::Reg;

/// Whether a word is `r` and a number.
pub(crate) fn is_register(word: &[u8]) -> bool
    ensures { result ≡ forms.is_register word.now }
{
    match word {
        [letter, digits @ ..] => *letter == b'r' && is_number(digits),
        _ => false,
    }
}

/// The number of a register, where it is below 2^64.
pub(crate) fn register_number(word: &[u8]) -> Option<u64>
    requires { forms.is_register word.now ≡ true }
    ensures { SomeIff result ((forms.register_of word.now).0 < 2 ^ 64) (forms.register_of word.now).0 }
{
    match word {
        [_, digits @ ..] => number_value(digits),
        _ => None,
    }
}

/// An earlier register. Where its number passes `u32` the core is too large, and the greatest stands for it.
pub(crate) fn register(next: u64, line: u64, word: &[u8]) -> Result<Reg, CoreFault>
    requires { forms.is_register word.now ≡ true }
    ensures { result ≡ (if ranges.is_earlier next (forms.register_of word.now) then Ok (kept (forms.register_of word.now)) else Err (CoreFault.OutOfRange line)) }
{
    match register_number(word) {
        Some(number) if number < next => Ok(kept_register(number)),
        _ => Err(CoreFault::OutOfRange(line)),
    }
}

fn kept_register(number: u64) -> Reg
    ensures { result ≡ kept (record { 0 = number }) }
{
    if number < 1 << 32 {
        Reg(number as u32)
    } else {
        Reg(u32::MAX)
    }
}

/// A constant of `width` bits.
pub(crate) fn constant(width: u32, line: u64, word: &[u8]) -> Result<u64, CoreFault>
    requires fits { width ≤ 64 }
    requires number { numbers.is_number word.now ≡ true }
    ensures { result ≡ (if ranges.is_constant width (numbers.value_of word.now) then Ok (numbers.value_of word.now) else Err (CoreFault.OutOfRange line)) }
{
    match number_value(word) {
        Some(value) if is_constant(width, value) => Ok(value),
        _ => Err(CoreFault::OutOfRange(line)),
    }
}

fn is_constant(width: u32, value: u64) -> bool
    requires { width ≤ 64 }
    ensures { result ≡ ranges.is_constant width value }
{
    width == 64 || value < 1 << width
}

/// The amount of a shift.
pub(crate) fn amount(width: u32, line: u64, word: &[u8]) -> Result<u32, CoreFault>
    requires { numbers.is_number word.now ≡ true }
    ensures { result ≡ (if ranges.is_amount width (numbers.value_of word.now) then Ok (numbers.value_of word.now) else Err (CoreFault.OutOfRange line)) }
{
    match number_below(word, u64::from(width)) {
        Some(amount) if amount > 0 => Ok(amount),
        _ => Err(CoreFault::OutOfRange(line)),
    }
}
