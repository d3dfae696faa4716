ghost use Rattle.std.specs.Prelude.{◌≡◌, ◌<◌, ◌≤◌};
ghost use Rattle.usuba0.specs.Term.{bits_of_width};

use std::marker::Model;
use usuba0::word_bits;

/// The words of a program of some width. Contracts see the width.
#[derive(Drop)]
pub struct Words {
    width: u32,
    bits: u32,
}

impl Model for Words {
    ghost use Rattle.std.specs.Prelude.{◌≡◌, ℕ, ◌<◌, ◌≤◌};
    ghost use Rattle.usuba0.specs.Term.{bits_of_width};

    ghost Value = { ℕ };

    ghost view = { λ s. s.width };

    ghost invariant = { λ s. (0 < s.width) × (s.width ≤ 64) × (s.bits ≡ bits_of_width s.width) };
}

impl Words {
    pub fn new(width: u32) -> Words
        requires some_width { 0 < width }
        requires width_fits { width ≤ 64 }
        ensures { result ≡ width }
    {
        let bits = word_bits(width);
        Words { width, bits }
    }

    pub(crate) fn width(&self) -> u32
        ensures width { result ≡ self.now }
        ensures some { 0 < self.now }
        ensures fits { self.now ≤ 64 }
    {
        self.width
    }

    // The bits of a word.
    pub(crate) fn bits(&self) -> u32
        ensures bits { result ≡ bits_of_width self.now }
        ensures within { self.now ≤ result }
        ensures some { 0 < result }
        ensures fits { result ≤ 64 }
    {
        self.bits
    }
}
