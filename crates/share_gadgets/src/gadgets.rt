//! The gadgets on sharings of D words.
ghost use Rattle.std.specs.Prelude.{◌≡◌, ℕ, ◌+◌, ◌%◌, ◌<◌, ◌≤◌, ◌^◌, List, map, length, slice_index, bit_and, vec_len, IfOk};
ghost use Rattle.std.specs.List.{range_with_len};
ghost use Rattle.share_gadgets.specs.Sharing.{sharing_value};
ghost use Rattle.share_gadgets.specs.Gadgets.{xor_shares, not_shares, mask_shares, pairs, product_shares, refreshed_shares};
ghost use Rattle.share_gadgets.specs.Private.PairLoop.{own_product};

use crate::pair_loop::{product_pairs, refresh_pairs};
use crate::register::Register;
use crate::sharing::Sharing;
use std::alloc::{AllocError, Global};

/// The exclusive-or, share by share.
pub fn xor<R: Register, const D: usize>(
    alloc: Global,
    a: &Sharing<R, D>,
    b: &Sharing<R, D>,
) -> Result<Sharing<R, D>, AllocError>
    ensures { IfOk result (λ sharing. map R.word sharing ≡ xor_shares D (map R.word a.now) (map R.word b.now)) }
{
    let left = a.shares();
    let right = b.shares();
    let mut shares = Vec::with_capacity(alloc, left.len())?;
    for k in 0..left.len() {
        shares.push(left[k].xor(right[k]))?;
    }
    Ok(Sharing::from_vec(shares))
}

/// Exclusive-ors the low bits of `mask` into share 0.
pub fn not<R: Register, const D: usize>(
    alloc: Global,
    a: &Sharing<R, D>,
    mask: u64,
) -> Result<Sharing<R, D>, AllocError>
    ensures { IfOk result (λ sharing. map R.word sharing ≡ not_shares (mask % 2 ^ R.bits) (map R.word a.now)) }
{
    let mut shares = Vec::from_slice(alloc, a.shares())?;
    shares[0] = shares[0].xor(R::of_word(mask));
    Ok(Sharing::from_vec(shares))
}

/// The and of each share with the low bits of `value`.
pub fn mask<R: Register, const D: usize>(
    alloc: Global,
    a: &Sharing<R, D>,
    value: u64,
) -> Result<Sharing<R, D>, AllocError>
    ensures { IfOk result (λ sharing. map R.word sharing ≡ mask_shares (value % 2 ^ R.bits) (map R.word a.now)) }
{
    let word = R::of_word(value);
    let given = a.shares();
    let mut shares = Vec::with_capacity(alloc, given.len())?;
    for share in given {
        shares.push(word.and(*share))?;
    }
    Ok(Sharing::from_vec(shares))
}

/// The product, with a random word for each pair i < j of shares, in lexicographic order.
pub fn mul<R: Register, const D: usize>(
    alloc: Global,
    a: &Sharing<R, D>,
    b: &Sharing<R, D>,
    words: &[R],
) -> Result<Sharing<R, D>, AllocError>
    requires { length words.now ≡ pairs D }
    ensures shares { IfOk result (λ sharing. map R.word sharing
        ≡ product_shares D (map R.word a.now) (map R.word b.now) (slice_index (map R.word words.now))) }
    ensures value { IfOk result (λ sharing. sharing_value (map R.word sharing)
        ≡ bit_and (sharing_value (map R.word a.now)) (sharing_value (map R.word b.now))) }
{
    let left = a.shares();
    let right = b.shares();
    let mut shares = own_products(alloc, left, right)?;
    product_pairs(&mut shares, left, right, words);
    Ok(Sharing::from_vec(shares))
}

/// The same value with new shares, by a random word for each pair i < j of shares, in lexicographic order.
pub fn refresh<R: Register, const D: usize>(
    alloc: Global,
    a: &Sharing<R, D>,
    words: &[R],
) -> Result<Sharing<R, D>, AllocError>
    requires { length words.now ≡ pairs D }
    ensures shares { IfOk result (λ sharing. map R.word sharing
        ≡ refreshed_shares D (map R.word a.now) (slice_index (map R.word words.now))) }
    ensures value { IfOk result (λ sharing. sharing_value (map R.word sharing) ≡ sharing_value (map R.word a.now)) }
{
    let given = a.shares();
    let mut shares = Vec::from_slice(alloc, given)?;
    refresh_pairs(&mut shares, given, words);
    Ok(Sharing::from_vec(shares))
}

// a_k & b_k for each k.
fn own_products<R: Register>(alloc: Global, a: &[R], b: &[R]) -> Result<Vec<R>, AllocError>
    requires { length b.now ≡ length a.now }
    ensures words { IfOk result (λ shares. map R.word shares.items
        ≡ map (own_product (map R.word a.now) (map R.word b.now)) (range_with_len 0 (length a.now))) }
    ensures len { IfOk result (λ shares. vec_len shares ≡ length a.now) }
{
    let mut shares = Vec::with_capacity(alloc, a.len())?;
    for k in 0..a.len() {
        shares.push(a[k].and(b[k]))?;
    }
    Ok(shares)
}
