// The words of a row, 64 columns each, and the loops over them.
ghost use Rattle.std.specs.Prelude.{◌≡◌, ℕ, ◌+◌, ◌*◌, ◌<◌, ◌≤◌, ◌^◌, ◌≢◌, length, slice_index, vec_len, bit_xor, MatchBool, MatchOption, false};
ghost use Rattle.std.specs.Bool.{OnTrue};
ghost use Rattle.std.specs.Simd.Lanes.{zip2, chunk, put_chunk};
ghost use Rattle.gf2_span.specs.Rows.{IsFirstFrom};
ghost use Rattle.gf2_span.specs.Words.{is_set, IsLastBelow};

use std::simd::prelude::*;

// How many words are added at a time.
const LANES: usize = 8;

// Adds eight words at once.
fn add_lanes(words: &mut [u64], other: &[u64], at: usize)
    requires same { length words.old ≡ length other.now }
    requires room { at + 8 ≤ length other.now }
    ensures { words.new ≡ put_chunk at words.old (zip2 bit_xor (chunk at 8 words.old) (chunk at 8 other.now)) }
{
    let sum = u64x8::from_slice(&words[at..]) ^ u64x8::from_slice(&other[at..]);
    sum.copy_to_slice(&mut words[at..]);
}

// Adds `other` to `words`, word by word, where the words of `other` from `end` on are known to be zero.
fn add_slice(words: &mut [u64], other: &[u64], end: usize)
    requires same { length words.old ≡ length other.now }
    requires within { end ≤ length other.now }
    requires clear { (c : ℕ) → 64 * end ≤ c → is_set other.now c ≡ false }
    ensures { words.new ≡ zip2 bit_xor words.old other.now }
{
    let mut at = 0;
    while end - at >= LANES {
        add_lanes(words, other, at);
        at += LANES;
    }
    while at < end {
        words[at] ^= other[at];
        at += 1;
    }
}

// The same in a `Vec`.
pub(crate) fn add_words(words: &mut Vec<u64>, other: &[u64], end: usize)
    requires same { vec_len words.old ≡ length other.now }
    requires within { end ≤ length other.now }
    requires clear { (c : ℕ) → 64 * end ≤ c → is_set other.now c ≡ false }
    ensures { words.new.items ≡ zip2 bit_xor words.old.items other.now }
{
    add_slice(words.as_mut_slice(), other, end);
}

// Makes eight words equal to others.
fn copy_lanes(words: &mut [u64], other: &[u64], at: usize)
    requires same { length words.old ≡ length other.now }
    requires room { at + 8 ≤ length other.now }
    ensures { words.new ≡ put_chunk at words.old (chunk at 8 other.now) }
{
    let lanes = u64x8::from_slice(&other[at..]);
    lanes.copy_to_slice(&mut words[at..]);
}

// Makes `words`, which are zero from `old_end` on, equal to `other`, which is zero from `end` on.
fn overwrite_slice(words: &mut [u64], old_end: usize, other: &[u64], end: usize)
    requires same { length words.old ≡ length other.now }
    requires old_within { old_end ≤ length other.now }
    requires within { end ≤ length other.now }
    requires old_clear { (c : ℕ) → 64 * old_end ≤ c → is_set words.old c ≡ false }
    requires clear { (c : ℕ) → 64 * end ≤ c → is_set other.now c ≡ false }
    ensures { words.new ≡ other.now }
{
    let mut at = 0;
    while end - at >= LANES {
        copy_lanes(words, other, at);
        at += LANES;
    }
    while at < end {
        words[at] = other[at];
        at += 1;
    }
    while at < old_end {
        words[at] = 0;
        at += 1;
    }
}

// The same in a `Vec`.
pub(crate) fn overwrite_words(words: &mut Vec<u64>, old_end: usize, other: &[u64], end: usize)
    requires same { vec_len words.old ≡ length other.now }
    requires old_within { old_end ≤ length other.now }
    requires within { end ≤ length other.now }
    requires old_clear { (c : ℕ) → 64 * old_end ≤ c → is_set words.old.items c ≡ false }
    requires clear { (c : ℕ) → 64 * end ≤ c → is_set other.now c ≡ false }
    ensures { words.new.items ≡ other.now }
{
    overwrite_slice(words.as_mut_slice(), old_end, other, end);
}

// Whether eight words are those of the other row.
fn lanes_are_same(words: &[u64], other: &[u64], at: usize) -> bool
    requires same { length words.now ≡ length other.now }
    requires room { at + 8 ≤ length other.now }
    ensures { OnTrue result
        ((k : ℕ) → at ≤ k → k < at + 8 → slice_index words.now k ≡ slice_index other.now k) }
{
    let sum = u64x8::from_slice(&words[at..]) ^ u64x8::from_slice(&other[at..]);
    sum.reduce_or() == 0
}

// Whether words are those of the other row, where both are zero from `end` on.
pub(crate) fn are_same(words: &[u64], other: &[u64], end: usize) -> bool
    requires same { length words.now ≡ length other.now }
    requires within { end ≤ length other.now }
    requires clear { (c : ℕ) → 64 * end ≤ c → is_set words.now c ≡ false }
    requires other_clear { (c : ℕ) → 64 * end ≤ c → is_set other.now c ≡ false }
    ensures { MatchBool result (words.now ≡ other.now) (is_set words.now ≢ is_set other.now) }
{
    let mut at = 0;
    while end - at >= LANES && lanes_are_same(words, other, at) {
        at += LANES;
    }
    while at < end {
        if words[at] != other[at] {
            return false;
        }
        at += 1;
    }
    true
}

// Whether eight words are zero.
fn lanes_are_zero(words: &[u64], at: usize) -> bool
    requires room { at + 8 ≤ length words.now }
    ensures { OnTrue result ((k : ℕ) → at ≤ k → k < at + 8 → slice_index words.now k ≡ 0) }
{
    u64x8::from_slice(&words[at..]).reduce_or() == 0
}

// The number of a word from `from` on where those between are zero. Such words are passed over eight at a time.
fn skipped(words: &[u64], from: usize, end: usize) -> usize
    requires start { from ≤ end }
    requires within { end ≤ length words.now }
    ensures past { from ≤ result }
    ensures zero { (k : ℕ) → from ≤ k → k < result → slice_index words.now k ≡ 0 }
{
    let mut at = from;
    while end - at >= LANES && lanes_are_zero(words, at) {
        at += LANES;
    }
    at
}

// The place of the first one from the word `from` on, in words of which those from `end` on are zero.
fn first_in_words(words: &[u64], from: usize, end: usize) -> Option<usize>
    requires short { length words.now < 2 ^ 32 }
    requires start { from ≤ end }
    requires within { end ≤ length words.now }
    requires clear { (c : ℕ) → 64 * end ≤ c → is_set words.now c ≡ false }
    ensures { MatchOption result
        ((c : ℕ) → 64 * from ≤ c → is_set words.now c ≡ false)
        (λ b. IsFirstFrom (is_set words.now) (64 * from) b) }
{
    let mut at = skipped(words, from, end);
    while at < end {
        let word = words[at];
        if word != 0 {
            return Some(64 * at + word.trailing_zeros() as usize);
        }
        at += 1;
    }
    None
}

// The place of the first one from `start` on, in words of which those from `end` on are zero.
pub(crate) fn first_bit_from(words: &[u64], start: usize, end: usize) -> Option<usize>
    requires short { length words.now < 2 ^ 32 }
    requires within { end ≤ length words.now }
    requires clear { (c : ℕ) → 64 * end ≤ c → is_set words.now c ≡ false }
    ensures { MatchOption result
        ((c : ℕ) → start ≤ c → is_set words.now c ≡ false)
        (λ b. IsFirstFrom (is_set words.now) start b) }
{
    let at = start / 64;
    if at >= end {
        return None;
    }
    let word = words[at] >> (start % 64);
    if word != 0 {
        return Some(start + word.trailing_zeros() as usize);
    }
    first_in_words(words, at + 1, end)
}

// How many of so many words are left without some of the zero words at their end, which are taken eight at a time.
fn trimmed(words: &[u64], many: usize) -> usize
    requires within { many ≤ length words.now }
    ensures within { result ≤ many }
    ensures zero { (k : ℕ) → result ≤ k → k < many → slice_index words.now k ≡ 0 }
{
    let mut at = many;
    while at >= LANES && lanes_are_zero(words, at - LANES) {
        at -= LANES;
    }
    at
}

// The place of the last one in so many words.
fn last_in_words(words: &[u64], many: usize) -> Option<usize>
    requires short { length words.now < 2 ^ 32 }
    requires within { many ≤ length words.now }
    ensures { MatchOption result ((c : ℕ) → c < 64 * many → is_set words.now c ≡ false) (λ b. IsLastBelow (is_set words.now) (64 * many) b) }
{
    let mut at = trimmed(words, many);
    while at > 0 {
        at -= 1;
        let word = words[at];
        if word != 0 {
            return Some(64 * at + word.ilog2() as usize);
        }
    }
    None
}

// The place of the last one below `end`.
pub(crate) fn last_bit(words: &[u64], end: usize) -> Option<usize>
    requires short { length words.now < 2 ^ 32 }
    requires within { end ≤ 64 * length words.now }
    ensures { MatchOption result ((c : ℕ) → c < end → is_set words.now c ≡ false) (λ b. IsLastBelow (is_set words.now) end b) }
{
    let whole = end / 64;
    let rest = end % 64;
    if rest == 0 {
        return last_in_words(words, whole);
    }
    let word = words[whole] & ((1 << rest) - 1);
    if word != 0 {
        return Some(64 * whole + word.ilog2() as usize);
    }
    last_in_words(words, whole)
}
