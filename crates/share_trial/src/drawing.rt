//! The shares and the random words of a trial.
ghost use Rattle.std.specs.Prelude.{◌≡◌, ◌<◌, ◌≤◌, IfOk, OnOk};
ghost use Rattle.share_gadgets.specs.MaskedRun.{words_drawn};
ghost use Rattle.usuba0.specs.Circuit.{IsCore};
ghost use Rattle.share_trial.specs.Trial.{drawn_sharings, after_sharings, trial_inputs, trial_words};
ghost use Rattle.word_draws.specs.Draws.{drawn_words, after_words};

use share_gadgets::Sharing;
use std::alloc::{AllocError, Global};
use tor_edge::List;
use usuba0::{Core, word_bits};
use word_draws::Draws;

/// The sharings of the inputs, and the random words of the run.
#[derive(Drop)]
pub struct Drawn<const D: usize> {
    pub inputs: List<Sharing<u64, D>>,
    pub words: Vec<u64>,
}

fn draw_sharing<const D: usize>(
    alloc: Global,
    draws: &mut Draws,
    bits: u32,
) -> Result<Sharing<u64, D>, AllocError>
    requires some { 0 < D }
    requires few { D ≤ 8 }
    requires fits { bits ≤ 64 }
    ensures drawn { IfOk result (λ sharing. sharing ≡ drawn_words bits draws.old D) }
    ensures state { OnOk result (draws.new ≡ after_words bits draws.old D) }
{
    let words = draws.words(alloc, bits, D)?;
    Sharing::from_words(alloc, words.as_slice())
}

fn draw_sharings<const D: usize>(
    alloc: Global,
    draws: &mut Draws,
    bits: u32,
    count: u32,
) -> Result<List<Sharing<u64, D>>, AllocError>
    requires some { 0 < D }
    requires few { D ≤ 8 }
    requires fits { bits ≤ 64 }
    ensures drawn { IfOk result (λ sharings. sharings ≡ drawn_sharings bits D draws.old count) }
    ensures state { OnOk result (draws.new ≡ after_sharings bits D draws.old count) }
{
    let mut sharings = List::new(alloc);
    for _k in 0..count {
        let sharing = draw_sharing(alloc, draws, bits)?;
        sharings.push(sharing)?;
    }
    Ok(sharings)
}

// How many random words a run draws.
fn word_count<const D: usize>(core: &Core) -> usize
    requires some { 0 < D }
    requires few { D ≤ 8 }
    ensures { result ≡ words_drawn D core.now }
{
    let drawing = core.products() as usize + core.refreshes() as usize;
    drawing * (D * (D - 1) / 2)
}

/// What a trial draws from its seed: first the shares of each input, and then the random words.
pub fn draw<const D: usize>(alloc: Global, core: &Core, seed: u64) -> Result<Drawn<D>, AllocError>
    requires some { 0 < D }
    requires few { D ≤ 8 }
    ensures inputs { IfOk result (λ drawn. drawn.inputs ≡ trial_inputs D core.now seed) }
    ensures words { IfOk result (λ drawn. drawn.words.items ≡ trial_words D core.now seed) }
    ensures core { IfOk result (λ _. IsCore core.now) }
{
    let bits = word_bits(core.width());
    let mut draws = Draws::new(seed);
    let inputs = draw_sharings(alloc, &mut draws, bits, core.inputs())?;
    let words = draws.words(alloc, bits, word_count::<D>(core))?;
    Ok(Drawn { inputs, words })
}
