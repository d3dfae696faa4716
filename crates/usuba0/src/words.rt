//! Words of 1 to 64 bits, kept in a `u64`.
ghost use Rattle.std.specs.Prelude.{◌≡◌, ◌<◌, ◌≤◌, ◌^◌};
ghost use Rattle.usuba0.specs.Term.{bits_of_width, ones, shifted_left, shifted_right, rotated_left, word_of_constant};

/// The word bits B of a width: 32 at width 1, so that 32 instances run side by side, and else the width.
pub fn word_bits(width: u32) -> u32
    requires some_width { 0 < width }
    requires width_fits { width ≤ 64 }
    ensures { result ≡ bits_of_width width }
{
    if width == 1 { 32 } else { width }
}

/// The word of `bits` ones.
pub fn all_ones(bits: u32) -> u64
    requires some { 0 < bits }
    requires fits { bits ≤ 64 }
    ensures { result ≡ ones bits }
{
    u64::MAX >> (64 - bits)
}

/// What a constant of a program of this width stands for in words of `bits` bits.
pub fn constant_word(width: u32, bits: u32, value: u64) -> u64
    requires some { 0 < bits }
    requires fits { bits ≤ 64 }
    ensures { result ≡ word_of_constant width bits value }
{
    if width == 1 && value == 1 {
        all_ones(bits)
    } else {
        value
    }
}

/// A word of `bits` bits shifted left; what leaves them is lost.
pub fn shift_left(bits: u32, k: u32, word: u64) -> u64
    requires below { k < bits }
    requires fits { bits ≤ 64 }
    ensures { result ≡ shifted_left bits k word }
{
    (word << k) & all_ones(bits)
}

/// A word shifted right.
pub fn shift_right(k: u32, word: u64) -> u64
    requires { k < 64 }
    ensures { result ≡ shifted_right k word }
{
    word >> k
}

/// A word of `bits` bits rotated left inside them.
pub fn rotate_left(bits: u32, k: u32, word: u64) -> u64
    requires some { 0 < k }
    requires below { k < bits }
    requires fits { bits ≤ 64 }
    ensures { result ≡ rotated_left bits k word }
{
    shift_left(bits, k, word) | shift_right(bits - k, word)
}
