//! Shifts and rotations of sharings, share by share.
ghost use Rattle.std.specs.Prelude.{◌≡◌, ℕ, ◌-◌, ◌<◌, ◌≤◌, ◌^◌, List, map, length, All, vec_len, IfOk};
ghost use Rattle.usuba0.specs.Term.{ones};
ghost use Rattle.share_gadgets.specs.Private.Shift.{shifted, IsWithin};

use crate::equation::all_ones;
use crate::register::Register;
use crate::sharing::Sharing;
use std::alloc::{AllocError, Global};

// A shift or a rotation to the left, by an amount.
#[derive(Clone, Copy)]
pub enum Shift {
    Left(u32),
    Right(u32),
    Rotate(u32),
}

// Each share shifted, in words of `bits` bits.
pub fn shift_each<R: Register, const D: usize>(
    alloc: Global,
    bits: u32,
    by: Shift,
    a: &Sharing<R, D>,
) -> Result<Sharing<R, D>, AllocError>
    requires within { IsWithin bits by }
    requires room { bits ≤ R.bits }
    requires words { All (λ word. word < 2 ^ bits) (map R.word a.now) }
    ensures { IfOk result (λ sharing. map R.word sharing ≡ map (shifted bits by) (map R.word a.now)) }
{
    let full = R::of_word(all_ones(bits));
    let given = a.shares();
    let mut shares = Vec::with_capacity(alloc, given.len())?;
    for share in given {
        shares.push(shift_word(bits, full, by, *share))?;
    }
    Ok(Sharing::from_vec(shares))
}

// One word shifted, given the word `full` of `bits` ones.
fn shift_word<R: Register>(bits: u32, full: R, by: Shift, word: R) -> R
    requires within { IsWithin bits by }
    requires room { bits ≤ R.bits }
    requires full { R.word full ≡ ones bits }
    requires word { R.word word < 2 ^ bits }
    ensures { R.word result ≡ shifted bits by (R.word word) }
{
    match by {
        Shift::Left(k) => word.shl(k).and(full),
        Shift::Right(k) => word.shr(k),
        Shift::Rotate(k) => word.shl(k).and(full).xor(word.shr(bits - k)),
    }
}
