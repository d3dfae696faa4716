//! The number that a word spells.
ghost use Rattle.std.specs.Prelude.{◌≡◌, ◌<◌, ◌≤◌, ◌+◌, ◌*◌, ◌^◌, None, Some, MatchOption};
ghost use Rattle.std.specs.Char as chars;
ghost use Rattle.std.specs.List.{list_all};
ghost use Rattle.std.specs.Option.{SomeIff};
ghost use Rattle.std.specs.Str.Parse.{digits_value};
ghost use Rattle.data_text.specs.Numbers as spec;

/// The digits of a number, and their base. They may be too many for any type.
#[derive(Clone, Copy)]
pub(crate) struct Digits<'a> {
    pub(crate) base: u64,
    pub(crate) digits: &'a [u8],
}

/// The digits that a word consists of, if it is a number.
pub(crate) fn digits_of(word: &[u8]) -> Option<Digits<'_>>
    ensures { MatchOption result (spec.number_of word.now ≡ None) (λ found.
        (spec.number_of word.now ≡ Some (digits_value found.base found.digits.now)) × (0 < found.base)) }
{
    match word {
        [first, second, digits @ ..] if *first == b'0' && *second == b'x' => in_base(16, digits),
        _ => in_base(10, word),
    }
}

fn in_base(base: u64, digits: &[u8]) -> Option<Digits<'_>>
    requires { 0 < base }
    ensures { MatchOption result (spec.number_in base digits.now ≡ None) (λ found.
        (spec.number_in base digits.now ≡ Some (digits_value found.base found.digits.now)) × (0 < found.base)) }
{
    if digits.is_empty() || !are_digits(base, digits) {
        return None;
    }
    Some(Digits { base, digits })
}

fn are_digits(base: u64, digits: &[u8]) -> bool
    ensures { result ≡ list_all (λ digit. chars.is_digit digit base) digits.now }
{
    digits
        .iter()
        .all(|digit| u64::from(digit_value(*digit)) < base)
}

// The value of a digit or a letter, and 36 for any other byte.
fn digit_value(byte: u8) -> u8
    ensures value { result ≡ chars.digit_value byte }
    ensures small { result ≤ 36 }
{
    match byte {
        b'0'..=b'9' => byte - b'0',
        b'A'..=b'Z' => byte - b'A' + 10,
        b'a'..=b'z' => byte - b'a' + 10,
        _ => 36,
    }
}

/// The number that the digits spell, where it is below 2^64.
pub(crate) fn value_of(base: u64, digits: &[u8]) -> Option<u64>
    requires { 0 < base }
    ensures { SomeIff result (digits_value base digits.now < 2 ^ 64) (digits_value base digits.now) }
{
    let mut value = 0;
    for digit in digits {
        match with_digit(value, base, *digit) {
            Some(more) => value = more,
            None => return None,
        }
    }
    Some(value)
}

// A number with one more digit at its end.
fn with_digit(value: u64, base: u64, digit: u8) -> Option<u64>
    ensures { let more = value * base + chars.digit_value digit in SomeIff result (more < 2 ^ 64) more }
{
    value
        .checked_mul(base)?
        .checked_add(u64::from(digit_value(digit)))
}
