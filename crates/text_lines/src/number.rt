ghost use Rattle.std.specs.Prelude.{◌≡◌, ◌<◌, ◌≤◌, ◌+◌, ◌*◌, ◌^◌, true, None, Some, nat_lt, if◌then◌else◌};
ghost use Rattle.std.specs.Char.{is_ascii_digit, digit_value};
ghost use Rattle.std.specs.List.{list_all};
ghost use Rattle.std.specs.Option.{SomeIff};
ghost use Rattle.text_lines.specs.Numbers as numbers;

/// Whether a word is a number.
pub fn is_number(word: &[u8]) -> bool
    ensures { result ≡ numbers.is_number word.now }
{
    match word {
        [] => false,
        [first, _, ..] if *first == b'0' => false,
        _ => are_digits(word),
    }
}

fn are_digits(word: &[u8]) -> bool
    ensures { result ≡ list_all is_ascii_digit word.now }
{
    word.iter().all(|byte| byte.is_ascii_digit())
}

/// The number that a word spells, where it is below 2^64.
pub fn number_value(word: &[u8]) -> Option<u64>
    requires { numbers.is_number word.now ≡ true }
    ensures { SomeIff result (numbers.value_of word.now < 2 ^ 64) (numbers.value_of word.now) }
{
    let mut value = 0;
    for digit in word {
        match with_digit(value, *digit) {
            Some(more) => value = more,
            None => return None,
        }
    }
    Some(value)
}

// A number with one more digit at its end.
fn with_digit(value: u64, digit: u8) -> Option<u64>
    requires { is_ascii_digit digit ≡ true }
    ensures { SomeIff result (value * 10 + digit_value digit < 2 ^ 64) (value * 10 + digit_value digit) }
{
    value.checked_mul(10)?.checked_add(u64::from(digit - b'0'))
}

/// The number that a word spells, where it is below the bound.
pub fn number_below(word: &[u8], bound: u64) -> Option<u32>
    requires number { numbers.is_number word.now ≡ true }
    requires bound { bound ≤ 2 ^ 32 }
    ensures { result ≡ (if nat_lt (numbers.value_of word.now) bound then Some (numbers.value_of word.now) else None) }
{
    match number_value(word) {
        Some(value) if value < bound => Some(value as u32),
        _ => None,
    }
}
