//! The loops over the pairs i < j of shares, which add the terms of products and refreshes in place.
ghost use Rattle.std.specs.Prelude.{◌≡◌, ℕ, ◌+◌, ◌<◌, ◌≤◌, List, map, length, slice_index, slice_set, bit_xor, vec_len};
ghost use Rattle.share_gadgets.specs.Gadgets.{pairs, product_of};
ghost use Rattle.share_gadgets.specs.Private.PairLoop.{row_start, product_before, refreshed_before};

use crate::register::Register;

// Exclusive-ors a term into share `k`.
pub fn take_term<R: Register>(shares: &mut Vec<R>, k: usize, term: R)
    requires { k < vec_len shares.old }
    ensures words { map R.word shares.new.items
        ≡ slice_set (map R.word shares.old.items) k (bit_xor (slice_index (map R.word shares.old.items) k) (R.word term)) }
    ensures len { vec_len shares.new ≡ vec_len shares.old }
{
    shares[k] = shares[k].xor(term);
}

// What the product adds to share j for the pair i < j: (z_ij ^ (a_i & b_j)) ^ (a_j & b_i).
pub fn crossed<R: Register>(a: &[R], b: &[R], word: R, i: usize, j: usize) -> R
    requires first { i < length a.now }
    requires second { j < length a.now }
    requires same { length b.now ≡ length a.now }
    ensures { R.word result
        ≡ bit_xor (bit_xor (R.word word) (product_of (map R.word a.now) (map R.word b.now) i j)) (product_of (map R.word a.now) (map R.word b.now) j i) }
{
    word.xor(a[i].and(b[j])).xor(a[j].and(b[i]))
}

// Adds the pairs (i, j) of row i, whose words begin at `start`.
pub fn product_row<R: Register>(
    shares: &mut Vec<R>,
    a: &[R],
    b: &[R],
    words: &[R],
    i: usize,
    start: usize,
)
    requires count { vec_len shares.old ≡ length a.now }
    requires same { length b.now ≡ length a.now }
    requires row { i < length a.now }
    requires few { length a.now ≤ 65535 }
    requires words { length words.now ≡ pairs (length a.now) }
    requires start { start ≡ row_start (length a.now) i }
    requires before { map R.word shares.old.items
        ≡ product_before (length a.now) (map R.word a.now) (map R.word b.now) (slice_index (map R.word words.now)) i (i + 1) }
    ensures after { map R.word shares.new.items
        ≡ product_before (length a.now) (map R.word a.now) (map R.word b.now) (slice_index (map R.word words.now)) (i + 1) (i + 2) }
    ensures len { vec_len shares.new ≡ vec_len shares.old }
{
    for j in i + 1..a.len() {
        let word = words[start + (j - i - 1)];
        let term = crossed(a, b, word, i, j);
        take_term(shares, i, word);
        take_term(shares, j, term);
    }
}

// Adds all pairs of a product.
pub fn product_pairs<R: Register>(shares: &mut Vec<R>, a: &[R], b: &[R], words: &[R])
    requires count { vec_len shares.old ≡ length a.now }
    requires same { length b.now ≡ length a.now }
    requires few { length a.now ≤ 65535 }
    requires words { length words.now ≡ pairs (length a.now) }
    requires before { map R.word shares.old.items
        ≡ product_before (length a.now) (map R.word a.now) (map R.word b.now) (slice_index (map R.word words.now)) 0 1 }
    ensures after { map R.word shares.new.items
        ≡ product_before (length a.now) (map R.word a.now) (map R.word b.now) (slice_index (map R.word words.now)) (length a.now) (length a.now + 1) }
    ensures len { vec_len shares.new ≡ vec_len shares.old }
{
    let mut start = 0;
    for i in 0..a.len() {
        product_row(shares, a, b, words, i, start);
        start += a.len() - i - 1;
    }
}

// Adds the pairs (i, j) of row i of a refresh, whose words begin at `start`.
pub fn refresh_row<R: Register>(shares: &mut Vec<R>, a: &[R], words: &[R], i: usize, start: usize)
    requires count { vec_len shares.old ≡ length a.now }
    requires row { i < length a.now }
    requires few { length a.now ≤ 65535 }
    requires words { length words.now ≡ pairs (length a.now) }
    requires start { start ≡ row_start (length a.now) i }
    requires before { map R.word shares.old.items
        ≡ refreshed_before (length a.now) (map R.word a.now) (slice_index (map R.word words.now)) i (i + 1) }
    ensures after { map R.word shares.new.items
        ≡ refreshed_before (length a.now) (map R.word a.now) (slice_index (map R.word words.now)) (i + 1) (i + 2) }
    ensures len { vec_len shares.new ≡ vec_len shares.old }
{
    for j in i + 1..a.len() {
        let drawn = words[start + (j - i - 1)];
        take_term(shares, i, drawn);
        take_term(shares, j, drawn);
    }
}

// Adds all pairs of a refresh.
pub fn refresh_pairs<R: Register>(shares: &mut Vec<R>, a: &[R], words: &[R])
    requires count { vec_len shares.old ≡ length a.now }
    requires few { length a.now ≤ 65535 }
    requires words { length words.now ≡ pairs (length a.now) }
    requires before { map R.word shares.old.items
        ≡ refreshed_before (length a.now) (map R.word a.now) (slice_index (map R.word words.now)) 0 1 }
    ensures after { map R.word shares.new.items
        ≡ refreshed_before (length a.now) (map R.word a.now) (slice_index (map R.word words.now)) (length a.now) (length a.now + 1) }
    ensures len { vec_len shares.new ≡ vec_len shares.old }
{
    let mut start = 0;
    for i in 0..a.len() {
        refresh_row(shares, a, words, i, start);
        start += a.len() - i - 1;
    }
}
