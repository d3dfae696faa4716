//! The plain run of a circuit.
ghost use Rattle.std.specs.Prelude.{◌≡◌, ◌<◌, ◌≤◌, ◌^◌, All, length, vec_len, IfOk};
ghost use Rattle.usuba0.specs.PlainRun as spec;
ghost use Rattle.usuba0.specs.PlainRun.{plain_run, word_of_equation};
ghost use Rattle.usuba0.specs.Circuit.{IsEquation, registers};
ghost use Rattle.usuba0.specs.Term.{bits_of_width};

use crate::circuit::{Core, Gate};
use crate::words::{all_ones, constant_word, rotate_left, shift_left, shift_right, word_bits};
use std::alloc::{AllocError, Global};
use tor_edge::List;

/// The words of the outputs for these words of the inputs, equation by equation.
pub fn run_plain(alloc: Global, core: &Core, inputs: &[u64]) -> Result<List<u64>, AllocError>
    requires count { length inputs.now ≡ core.now.inputs }
    requires words { All (λ x. x < 2 ^ bits_of_width core.now.width) inputs.now }
    ensures { IfOk result (λ words. words ≡ plain_run (bits_of_width core.now.width) core.now inputs.now) }
{
    let words = run_equations(alloc, core, inputs)?;
    let registers = core.output_slice();
    let mut outputs = List::new(alloc);
    for output in registers {
        outputs.push(words[output.0 as usize])?;
    }
    Ok(outputs)
}

fn run_equations(alloc: Global, core: &Core, inputs: &[u64]) -> Result<Vec<u64>, AllocError>
    requires { length inputs.now ≡ core.now.inputs }
    ensures words { let w = core.now.width in
        IfOk result (λ words. words.items ≡ spec.run_equations w (bits_of_width w) inputs.now core.now.equations) }
    ensures all { IfOk result (λ words. vec_len words ≡ registers core.now) }
{
    let equations = core.equation_slice();
    let width = core.width();
    let bits = word_bits(width);
    let mut words = Vec::from_slice(alloc, inputs)?;
    for gate in equations {
        let word = word_of(width, bits, words.as_slice(), gate);
        words.push(word)?;
    }
    Ok(words)
}

// The word that the equation makes of the words of the earlier registers.
fn word_of(width: u32, bits: u32, words: &[u64], gate: &Gate) -> u64
    requires some { 0 < bits }
    requires fits { bits ≤ 64 }
    requires within { width ≤ bits }
    requires gate { IsEquation width (length words.now) gate.now }
    ensures { result ≡ word_of_equation width bits words.now gate.now }
{
    match *gate {
        Gate::Const(c) => constant_word(width, bits, c),
        Gate::Xor(a, b) => words[a.0 as usize] ^ words[b.0 as usize],
        Gate::Not(a) => words[a.0 as usize] ^ all_ones(bits),
        Gate::Mask(c, a) => constant_word(width, bits, c) & words[a.0 as usize],
        Gate::And(a, b) => words[a.0 as usize] & words[b.0 as usize],
        Gate::Shl(k, a) => shift_left(bits, k, words[a.0 as usize]),
        Gate::Shr(k, a) => shift_right(k, words[a.0 as usize]),
        Gate::Rotl(k, a) => rotate_left(bits, k, words[a.0 as usize]),
        Gate::Refresh(a) => words[a.0 as usize],
    }
}
