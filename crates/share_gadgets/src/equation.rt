//! The sharing that one equation makes.
ghost use Rattle.std.specs.Prelude.{◌≡◌, ℕ, ◌+◌, ◌-◌, ◌*◌, ◌%◌, ◌<◌, ◌≤◌, ◌^◌, List, map, length, slice_index, slice_index_or, All, replicate, vec_len, IfOk};
ghost use Rattle.usuba0.specs.Circuit.{IsEquation};
ghost use Rattle.usuba0.specs.Term.{ones, word_of_constant};
ghost use Rattle.share_gadgets.specs.Sharing.{IsSharing};
ghost use Rattle.share_gadgets.specs.Gadgets.{constant_shares, not_shares, mask_shares, pairs, product_shares, refreshed_shares};
ghost use Rattle.share_gadgets.specs.MaskedRun.{draws, sharing_of_equation};
ghost use Rattle.share_gadgets.specs.Private.Cut.{cut_number, cut_word};

use crate::gadgets::{mask, mul, not, refresh, xor};
use crate::register::Register;
use crate::sharing::Sharing;
use crate::shifts::{Shift, shift_each};
use std::alloc::{AllocError, Global};
use usuba0::{Gate, Reg};

// The sharing that the equation makes at this width, with the first of these words for its pairs.
pub fn sharing_of<R: Register, const D: usize>(
    alloc: Global,
    width: u32,
    bits: u32,
    sharings: &[Sharing<R, D>],
    words: &[u64],
    gate: &Gate,
) -> Result<Sharing<R, D>, AllocError>
    requires some { 0 < D }
    requires few { D ≤ 65535 }
    requires bits { 0 < bits }
    requires fits { bits ≤ 64 }
    requires within { width ≤ bits }
    requires room { bits ≤ R.bits }
    requires gate { IsEquation width (length sharings.now) gate.now }
    requires shared { All (IsSharing bits D) (map (map R.word) sharings.now) }
    requires words { draws gate.now * pairs D ≤ length words.now }
    ensures { IfOk result (λ sharing. map R.word sharing
        ≡ sharing_of_equation width bits D (cut_word bits words.now) (map (map R.word) sharings.now) gate.now) }
{
    match *gate {
        Gate::Const(c) => constant(alloc, constant_word(width, bits, c)),
        Gate::Xor(a, b) => xor(alloc, &sharings[a.0 as usize], &sharings[b.0 as usize]),
        Gate::Not(a) => not(alloc, &sharings[a.0 as usize], all_ones(bits)),
        Gate::Mask(c, a) => mask(
            alloc,
            &sharings[a.0 as usize],
            constant_word(width, bits, c),
        ),
        Gate::And(a, b) => product(
            alloc,
            bits,
            &sharings[a.0 as usize],
            &sharings[b.0 as usize],
            words,
        ),
        Gate::Shl(k, a) => shift_each(alloc, bits, Shift::Left(k), &sharings[a.0 as usize]),
        Gate::Shr(k, a) => shift_each(alloc, bits, Shift::Right(k), &sharings[a.0 as usize]),
        Gate::Rotl(k, a) => shift_each(alloc, bits, Shift::Rotate(k), &sharings[a.0 as usize]),
        Gate::Refresh(a) => refreshed(alloc, bits, &sharings[a.0 as usize], words),
    }
}

// The word of `bits` ones.
pub fn all_ones(bits: u32) -> u64
    requires some { 0 < bits }
    requires fits { bits ≤ 64 }
    ensures { result ≡ ones bits }
{
    u64::MAX >> (64 - bits)
}

// What a constant stands for in words of `bits` bits.
fn constant_word(width: u32, bits: u32, value: u64) -> u64
    requires some { 0 < bits }
    requires fits { bits ≤ 64 }
    ensures { result ≡ word_of_constant width bits value }
{
    if width == 1 && value == 1 {
        all_ones(bits)
    } else {
        value
    }
}

// A word in share 0, and 0 in the others.
fn constant<R: Register, const D: usize>(
    alloc: Global,
    word: u64,
) -> Result<Sharing<R, D>, AllocError>
    requires some { 0 < D }
    requires few { D ≤ 65535 }
    ensures { IfOk result (λ sharing. map R.word sharing ≡ constant_shares D (word % 2 ^ R.bits)) }
{
    let mut shares = zeros(alloc, D)?;
    shares[0] = R::of_word(word);
    Ok(Sharing::from_vec(shares))
}

fn zeros<R: Register>(alloc: Global, count: usize) -> Result<Vec<R>, AllocError>
    ensures words { IfOk result (λ zeros. map R.word zeros.items ≡ replicate count 0) }
    ensures len { IfOk result (λ zeros. vec_len zeros ≡ count) }
{
    let mut zeros = Vec::with_capacity(alloc, count)?;
    for _k in 0..count {
        zeros.push(R::zero())?;
    }
    Ok(zeros)
}

// How many pairs of shares there are.
pub fn pair_count(shares: usize) -> usize
    requires some { 0 < shares }
    requires few { shares ≤ 65535 }
    ensures { result ≡ pairs shares }
{
    shares * (shares - 1) / 2
}

// The words, each cut to `bits` bits.
fn cut<R: Register>(alloc: Global, bits: u32, words: &[u64]) -> Result<Vec<R>, AllocError>
    requires some { 0 < bits }
    requires fits { bits ≤ 64 }
    requires room { bits ≤ R.bits }
    ensures words { IfOk result (λ cut. map R.word cut.items ≡ map (cut_number bits) words.now) }
    ensures len { IfOk result (λ cut. vec_len cut ≡ length words.now) }
{
    let ones = all_ones(bits);
    let mut cut = Vec::with_capacity(alloc, words.len())?;
    for word in words {
        cut.push(R::of_word(*word & ones))?;
    }
    Ok(cut)
}

// A product with the first words of a list.
fn product<R: Register, const D: usize>(
    alloc: Global,
    bits: u32,
    a: &Sharing<R, D>,
    b: &Sharing<R, D>,
    words: &[u64],
) -> Result<Sharing<R, D>, AllocError>
    requires shares { 0 < D }
    requires few { D ≤ 65535 }
    requires some { 0 < bits }
    requires fits { bits ≤ 64 }
    requires room { bits ≤ R.bits }
    requires words { pairs D ≤ length words.now }
    ensures { IfOk result (λ sharing. map R.word sharing
        ≡ product_shares D (map R.word a.now) (map R.word b.now) (cut_word bits words.now)) }
{
    let random = cut(alloc, bits, &words[..pair_count(D)])?;
    mul(alloc, a, b, random.as_slice())
}

// A refresh with the first words of a list.
fn refreshed<R: Register, const D: usize>(
    alloc: Global,
    bits: u32,
    a: &Sharing<R, D>,
    words: &[u64],
) -> Result<Sharing<R, D>, AllocError>
    requires shares { 0 < D }
    requires few { D ≤ 65535 }
    requires some { 0 < bits }
    requires fits { bits ≤ 64 }
    requires room { bits ≤ R.bits }
    requires words { pairs D ≤ length words.now }
    ensures { IfOk result (λ sharing. map R.word sharing ≡ refreshed_shares D (map R.word a.now) (cut_word bits words.now)) }
{
    let random = cut(alloc, bits, &words[..pair_count(D)])?;
    refresh(alloc, a, random.as_slice())
}

// 1 where the equation draws random words, else 0.
pub fn draw_count(gate: &Gate) -> usize
    ensures { result ≡ draws gate.now }
{
    match gate {
        Gate::And(_, _) | Gate::Refresh(_) => 1,
        _ => 0,
    }
}
