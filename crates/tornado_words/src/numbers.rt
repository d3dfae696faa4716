ghost use Rattle.std.specs.Prelude.{◌≡◌, ◌<◌, ◌^◌, true};
ghost use Rattle.std.specs.Char.{is_ascii_digit};
ghost use Rattle.std.specs.List.{list_all};
ghost use Rattle.std.specs.Option.{SomeIff};
ghost use Rattle.tornado_words.specs.Numbers as spec;

/// The number from `least` to `most` that a word spells.
pub(crate) fn number_within(least: u64, most: u64, word: &str) -> Option<u64>
    ensures { result ≡ spec.number_within least most word.now }
{
    if !is_number(word) {
        return None;
    }
    match value_of(word) {
        Some(number) if least <= number && number <= most => Some(number),
        _ => None,
    }
}

// The number that digits spell, where it is below 2^64.
fn value_of(word: &str) -> Option<u64>
    requires { spec.is_number word.now ≡ true }
    ensures { SomeIff result (spec.value_of word.now < 2 ^ 64) (spec.value_of word.now) }
{
    match word.parse::<u64>() {
        Ok(number) => Some(number),
        Err(_) => None,
    }
}

// Whether the word is 1 to 20 decimal digits.
fn is_number(word: &str) -> bool
    ensures { result ≡ spec.is_number word.now }
{
    1 <= word.len() && word.len() <= 20 && are_digits(word.as_bytes())
}

fn are_digits(word: &[u8]) -> bool
    ensures { result ≡ list_all is_ascii_digit word.now }
{
    word.iter().all(|byte| byte.is_ascii_digit())
}
