//! Numbers in decimal and hexadecimal digits.

ghost use Rattle.std.specs.Prelude.{◌≡◌, ◌≤◌, ◌<◌, ◌+◌, length, All};
ghost use Rattle.std.specs.Char.{is_ascii_digit, is_ascii_hexdigit, digit_value};
ghost use Rattle.usuba_tokens.specs.Numbers as numbers;

use crate::head::byte;

fn is_hexadecimal(text: &[u8]) -> bool
    ensures value { result ≡ numbers.is_hexadecimal text.now }
{
    byte(text, 0) == b'0' && byte(text, 1) == b'x' && byte(text, 2).is_ascii_hexdigit()
}

pub fn is_digit(b: u8) -> bool
    ensures { result ≡ is_ascii_digit b }
{
    b.is_ascii_digit()
}

fn is_hexadecimal_digit(b: u8) -> bool
    ensures { result ≡ is_ascii_hexdigit b }
{
    b.is_ascii_hexdigit()
}

fn decimal_len(text: &[u8]) -> usize
    ensures { result ≡ numbers.decimal_len text.now }
{
    text.iter().take_while(|b| is_digit(**b)).count()
}

fn hexadecimal_len(text: &[u8]) -> usize
    ensures value { result ≡ numbers.hexadecimal_len text.now }
    ensures within { result ≤ length text.now }
{
    text.iter()
        .take_while(|b| is_hexadecimal_digit(**b))
        .count()
}

/// How long the longest number is at the head of a text that begins with a digit.
pub fn number_len(text: &[u8]) -> usize
    ensures value { result ≡ numbers.number_len text.now }
{
    if is_hexadecimal(text) {
        2 + hexadecimal_len(&text[2..])
    } else {
        decimal_len(text)
    }
}

fn digit_value(b: u8) -> u64
    ensures { result ≡ digit_value b }
{
    match b {
        b'0'..=b'9' => u64::from(b - b'0'),
        b'A'..=b'Z' => u64::from(b - b'A') + 10,
        b'a'..=b'z' => u64::from(b - b'a') + 10,
        _ => 36,
    }
}

/// The value of digits to a base, where it is below 2^64.
pub fn value_in(base: u64, digits: &[u8]) -> Option<u64>
    requires { 0 < base }
    ensures { result ≡ numbers.below_2_64 (numbers.value_in base digits.now) }
{
    let mut value: u64 = 0;
    for digit in digits {
        value = value.checked_mul(base)?.checked_add(digit_value(*digit))?;
    }
    Some(value)
}

pub fn number_value(text: &[u8]) -> Option<u64>
    ensures { result ≡ numbers.below_2_64 (numbers.number_value text.now) }
{
    if is_hexadecimal(text) {
        value_in(16, &text[2..])
    } else {
        value_in(10, text)
    }
}
