//! The masked run of a core.
ghost use Rattle.std.specs.Prelude.{◌≡◌, ℕ, ◌+◌, ◌*◌, ◌%◌, ◌<◌, ◌≤◌, ◌^◌, ◌↔◌, List, map, length, drop, slice_index, All, vec_len, Err, IfOk};
ghost use Rattle.usuba0.specs.Circuit.{IsEquation, registers};
ghost use Rattle.usuba0.specs.PlainRun.{plain_run};
ghost use Rattle.usuba0.specs.Term.{bits_of_width};
ghost use Rattle.share_gadgets.specs.Sharing.{sharing_value, IsSharing};
ghost use Rattle.share_gadgets.specs.Gadgets.{pairs};
ghost use Rattle.share_gadgets.specs.MaskedRun.{draws, drawn_word, sharing_at, sharing_of_equation, run_shared, masked_run, words_drawn};
ghost use Rattle.share_gadgets.specs.RunLaw.{IsMaskedInput};
ghost use Rattle.share_gadgets.specs.declared.run.MaskFault.TheVariants.{Memory};

use crate::equation::{draw_count, pair_count, sharing_of};
use crate::register::Register;
use crate::sharing::{MAX_SHARES, Sharing};
use std::alloc::{AllocError, Global};
use thiserror::Error;
use tor_edge::List;
use usuba0::{Core, Gate, word_bits};

/// Why there is no masked run.
#[derive(Debug, Drop, Error)]
pub enum MaskFault {
    #[error("too few random words")]
    WordsShort,
    #[error("out of memory")]
    Memory(AllocError),
}

impl From<AllocError> for MaskFault {
    ghost from_gives = { λ error fault. fault ≡ Memory error };

    fn from(error: AllocError) -> MaskFault {
        MaskFault::Memory(error)
    }
}

/// The sharings of the outputs, and how many random words were drawn.
#[derive(Debug, Drop)]
pub struct MaskedRun<R, const D: usize> {
    pub outputs: List<Sharing<R, D>>,
    pub drawn: u64,
}

/// Runs the core on sharings, with a random word for each pair of shares of each product and refresh, in their order.
/// A random word is cut to the word bits of the core's width.
pub fn run_masked<R: Register, const D: usize>(
    alloc: Global,
    core: &Core,
    inputs: &List<Sharing<R, D>>,
    words: &[u64],
) -> Result<MaskedRun<R, D>, MaskFault>
    requires some { 0 < D }
    requires few { D ≤ MAX_SHARES }
    requires count { length inputs.now ≡ core.now.inputs }
    requires room { bits_of_width core.now.width ≤ R.bits }
    requires words { All (All (λ x. x < 2 ^ bits_of_width core.now.width)) (map (map R.word) inputs.now) }
    ensures outputs { IfOk result (λ run. map (map R.word) run.outputs
        ≡ masked_run (bits_of_width core.now.width) D core.now (map (map R.word) inputs.now) words.now) }
    ensures drawn { IfOk result (λ run. run.drawn ≡ words_drawn D core.now) }
    ensures values { IfOk result (λ run. map sharing_value (map (map R.word) run.outputs)
        ≡ plain_run (bits_of_width core.now.width) core.now (map sharing_value (map (map R.word) inputs.now))) }
    ensures short { (result ≡ Err MaskFault.WordsShort) ↔ (length words.now < words_drawn D core.now) }
{
    let drawn = needed::<D>(core);
    if (words.len() as u64) < drawn {
        return Err(MaskFault::WordsShort);
    }
    let outputs = run_in_memory(alloc, core, inputs, words)?;
    Ok(MaskedRun { outputs, drawn })
}

// How many random words a run draws.
fn needed<const D: usize>(core: &Core) -> u64
    requires some { 0 < D }
    requires few { D ≤ 65535 }
    ensures { result ≡ words_drawn D core.now }
{
    let drawing = u64::from(core.products()) + u64::from(core.refreshes());
    drawing * (pair_count(D) as u64)
}

// A run with enough random words.
fn run_in_memory<R: Register, const D: usize>(
    alloc: Global,
    core: &Core,
    inputs: &List<Sharing<R, D>>,
    words: &[u64],
) -> Result<List<Sharing<R, D>>, AllocError>
    requires some { 0 < D }
    requires few { D ≤ 65535 }
    requires count { length inputs.now ≡ core.now.inputs }
    requires room { bits_of_width core.now.width ≤ R.bits }
    requires words { All (All (λ x. x < 2 ^ bits_of_width core.now.width)) (map (map R.word) inputs.now) }
    requires enough { words_drawn D core.now ≤ length words.now }
    ensures outputs { IfOk result (λ outputs. map (map R.word) outputs
        ≡ masked_run (bits_of_width core.now.width) D core.now (map (map R.word) inputs.now) words.now) }
    ensures given { IfOk result (λ _. IsMaskedInput (bits_of_width core.now.width) D core.now (map (map R.word) inputs.now)) }
{
    let sharings = run_equations(alloc, core, inputs, words)?;
    let mut outputs = List::new(alloc);
    for k in 0..core.outputs() {
        let register = core.output(k).unwrap();
        let output = sharings[register.0 as usize].copy(alloc)?;
        outputs.push(output)?;
    }
    Ok(outputs)
}

// The sharings of all registers.
fn run_equations<R: Register, const D: usize>(
    alloc: Global,
    core: &Core,
    inputs: &List<Sharing<R, D>>,
    words: &[u64],
) -> Result<Vec<Sharing<R, D>>, AllocError>
    requires some { 0 < D }
    requires few { D ≤ 65535 }
    requires count { length inputs.now ≡ core.now.inputs }
    requires room { bits_of_width core.now.width ≤ R.bits }
    requires words { All (All (λ x. x < 2 ^ bits_of_width core.now.width)) (map (map R.word) inputs.now) }
    requires enough { words_drawn D core.now ≤ length words.now }
    ensures run { IfOk result (λ sharings. map (map R.word) sharings.items
        ≡ run_shared core.now.width (bits_of_width core.now.width) D words.now 0 (map (map R.word) inputs.now) core.now.equations) }
    ensures all { IfOk result (λ sharings. vec_len sharings ≡ registers core.now) }
    ensures given { IfOk result (λ _. IsMaskedInput (bits_of_width core.now.width) D core.now (map (map R.word) inputs.now)) }
{
    let width = core.width();
    let bits = word_bits(width);
    let mut sharings = copies(alloc, inputs)?;
    let mut drawing = 0;
    for k in 0..core.equations() {
        let gate = core.equation(k).unwrap();
        let sharing = next_sharing(
            alloc,
            width,
            bits,
            sharings.as_slice(),
            words,
            drawing,
            gate,
        )?;
        sharings.push(sharing)?;
        drawing += draw_count(gate);
    }
    Ok(sharings)
}

// The sharing that the equation makes after `drawing` equations that drew.
fn next_sharing<R: Register, const D: usize>(
    alloc: Global,
    width: u32,
    bits: u32,
    sharings: &[Sharing<R, D>],
    words: &[u64],
    drawing: usize,
    gate: &Gate,
) -> Result<Sharing<R, D>, AllocError>
    requires some { 0 < D }
    requires few { D ≤ 65535 }
    requires bits { 0 < bits }
    requires fits { bits ≤ 64 }
    requires within { width ≤ bits }
    requires room { bits ≤ R.bits }
    requires gate { IsEquation width (length sharings.now) gate.now }
    requires shared { All (IsSharing bits D) (map (map R.word) sharings.now) }
    requires enough { (drawing + draws gate.now) * pairs D ≤ length words.now }
    ensures { IfOk result (λ sharing. map R.word sharing
        ≡ sharing_of_equation width bits D (drawn_word bits D words.now drawing) (map (map R.word) sharings.now) gate.now) }
{
    let rest = &words[drawing * pair_count(D)..];
    sharing_of(alloc, width, bits, sharings, rest, gate)
}

fn copies<R: Register, const D: usize>(
    alloc: Global,
    inputs: &List<Sharing<R, D>>,
) -> Result<Vec<Sharing<R, D>>, AllocError>
    ensures items { IfOk result (λ copies. copies.items ≡ inputs.now) }
    ensures len { IfOk result (λ copies. vec_len copies ≡ length inputs.now) }
    ensures counts { IfOk result (λ _. All (λ sharing. length sharing ≡ D) inputs.now) }
{
    let given = inputs.as_slice();
    let mut copies = Vec::with_capacity(alloc, given.len())?;
    for input in given {
        copies.push(input.copy(alloc)?)?;
    }
    Ok(copies)
}
