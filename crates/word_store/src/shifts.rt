ghost use Rattle.std.specs.Prelude.{◌≡◌, ◌<◌, ◌≤◌, ◌^◌};
ghost use Rattle.usuba_model.specs.Meaning.{word_shift};

use usuba_trees::ShiftKind;
use usuba0::{rotate_left, shift_left, shift_right};

// A shift of a word of `bits` bits by at least one.
fn shift_by_some(bits: u32, kind: ShiftKind, amount: u32, word: u64) -> u64
    requires some { 0 < amount }
    requires below { amount < bits }
    requires fits { bits ≤ 64 }
    ensures { result ≡ word_shift bits kind amount word }
{
    match kind {
        ShiftKind::Left => shift_left(bits, amount, word),
        ShiftKind::Right => shift_right(amount, word),
        ShiftKind::RotLeft => rotate_left(bits, amount, word),
        ShiftKind::RotRight => rotate_left(bits, bits - amount, word),
    }
}

/// A shift or rotation of a word of `bits` bits.
pub fn shift_word(bits: u32, kind: ShiftKind, amount: u32, word: u64) -> u64
    requires below { amount < bits }
    requires fits { bits ≤ 64 }
    requires word { word < 2 ^ bits }
    ensures { result ≡ word_shift bits kind amount word }
{
    if amount == 0 {
        word
    } else {
        shift_by_some(bits, kind, amount, word)
    }
}
