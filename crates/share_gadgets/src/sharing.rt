//! Sharings: a word as the exclusive-or of D words.
ghost use Rattle.std.specs.Prelude.{◌≡◌, ℕ, ◌<◌, ◌≤◌, List, map, length, slice_get, IfOk};
ghost use Rattle.share_gadgets.specs.Sharing.{sharing_value};

use crate::register::Register;
use std::alloc::{AllocError, Global};
use std::marker::Model;

/// The greatest number of shares.
pub const MAX_SHARES: usize = 65_535;

/// The value of the limit.
pub fn limits()
    ensures { MAX_SHARES ≡ 65535 }
{}

/// D words, at least one and at most `MAX_SHARES`, whose exclusive-or is the value that they share.
#[derive(Debug, Drop)]
pub struct Sharing<R, const D: usize> {
    shares: Vec<R>,
}

impl<R, const D: usize> Model for Sharing<R, D> {
    ghost use Rattle.std.specs.Prelude.{◌≡◌, ◌<◌, ◌≤◌, List, length};
    ghost use Rattle.std.specs.Coded.{coded_list};

    ghost Value = { List R };

    ghost coded = { coded_list R.code };

    ghost view = { λ s. s.shares.items };

    ghost invariant = { λ s. (length s.shares.items ≡ D) × (0 < D) × (D ≤ 65535) };
}

impl<R: Register, const D: usize> Sharing<R, D> {
    pub fn from_words(alloc: Global, words: &[R]) -> Result<Sharing<R, D>, AllocError>
        requires some { 0 < D }
        requires few { D ≤ MAX_SHARES }
        requires count { length words.now ≡ D }
        ensures { IfOk result (λ sharing. sharing ≡ words.now) }
    {
        let shares = Vec::from_slice(alloc, words)?;
        Ok(Sharing { shares })
    }

    /// Share `k`, counted from 0.
    pub fn share(&self, k: usize) -> Option<R>
        ensures share { result ≡ slice_get self.now k }
        ensures count { length self.now ≡ D }
        ensures some { 0 < D }
        ensures few { D ≤ MAX_SHARES }
    {
        self.shares.get(k).copied()
    }

    /// The exclusive-or of the shares.
    pub fn value(&self) -> R
        ensures { R.word result ≡ sharing_value (map R.word self.now) }
    {
        let mut sum = R::zero();
        for share in &self.shares {
            sum = sum.xor(*share);
        }
        sum
    }

    // The shares, in order.
    pub(crate) fn shares(&self) -> &[R]
        ensures shares { result.now ≡ self.now }
        ensures count { length self.now ≡ D }
        ensures some { 0 < D }
        ensures few { D ≤ 65535 }
    {
        self.shares.as_slice()
    }

    pub(crate) fn copy(&self, alloc: Global) -> Result<Sharing<R, D>, AllocError>
        ensures same { IfOk result (λ sharing. sharing ≡ self.now) }
        ensures count { IfOk result (λ _. length self.now ≡ D) }
    {
        let shares = Vec::from_slice(alloc, self.shares())?;
        Ok(Sharing { shares })
    }

    pub(crate) fn from_vec(shares: Vec<R>) -> Sharing<R, D>
        requires some { 0 < D }
        requires few { D ≤ 65535 }
        requires count { length shares.items ≡ D }
        ensures { result ≡ shares.items }
    {
        Sharing { shares }
    }
}
