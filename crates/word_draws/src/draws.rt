ghost use Rattle.std.specs.Prelude.{◌≡◌, ◌%◌, ◌<◌, ◌≤◌, ◌^◌, All, IfOk, OnOk};
ghost use Rattle.word_draws.specs.Draws.{start, next, after_draws, drawn_bytes};
ghost use Rattle.word_draws.specs.Draws.{drawn_word, after_word, drawn_words, after_words};

use std::alloc::{AllocError, Global};
use std::marker::Model;

/// What states and draws are taken modulo.
pub const MODULUS: u32 = 65_537;

/// The draws from a seed: contracts see their state, a number.
#[derive(Debug, Drop)]
pub struct Draws {
    state: u32,
}

impl Model for Draws {
    ghost use Rattle.std.specs.Prelude.{ℕ, ◌<◌};

    ghost Value = { ℕ };

    ghost view = { λ draws. draws.state };

    ghost invariant = { λ draws. draws.state < 65537 };
}

impl Draws {
    pub fn new(seed: u64) -> Draws
        ensures { result ≡ start seed }
    {
        Draws {
            state: (seed % u64::from(MODULUS)) as u32,
        }
    }

    /// The next number.
    pub fn draw(&mut self) -> u32
        ensures drawn { result ≡ next self.old }
        ensures state { self.new ≡ next self.old }
        ensures below { result < 65537 }
    {
        self.state = (75 * self.state + 74) % MODULUS;
        self.state
    }

    /// The next word of so many bits.
    pub fn word(&mut self, bits: u32) -> u64
        requires { bits ≤ 64 }
        ensures drawn { result ≡ drawn_word bits self.old }
        ensures state { self.new ≡ after_word bits self.old }
        ensures below { result < 2 ^ bits }
    {
        let number = self.bytes(bits.div_ceil(8));
        cut(number, bits)
    }

    /// The next words of so many bits. After want of memory some of them are drawn.
    pub fn words(&mut self, alloc: Global, bits: u32, count: usize) -> Result<Vec<u64>, AllocError>
        requires { bits ≤ 64 }
        ensures drawn { IfOk result (λ words. words.items ≡ drawn_words bits self.old count) }
        ensures state { OnOk result (self.new ≡ after_words bits self.old count) }
        ensures below { IfOk result (λ words. All (λ word. word < 2 ^ bits) words.items) }
    {
        let mut words = Vec::with_capacity(alloc, count)?;
        for _k in 0..count {
            words.push(self.word(bits))?;
        }
        Ok(words)
    }

    /// The number of the next bytes, least significant first.
    fn bytes(&mut self, count: u32) -> u64
        requires { count ≤ 8 }
        ensures drawn { result ≡ drawn_bytes self.old count }
        ensures state { self.new ≡ after_draws self.old count }
        ensures below { result < 256 ^ count }
    {
        if count == 0 {
            return 0;
        }
        let low = u64::from(self.draw() % 256);
        low + 256 * self.bytes(count - 1)
    }
}

/// The low bits of a number.
fn cut(number: u64, bits: u32) -> u64
    requires { bits ≤ 64 }
    ensures { result ≡ number % 2 ^ bits }
{
    if bits == 64 {
        number
    } else {
        number % (1 << bits)
    }
}
