ghost use Rattle.std.specs.Prelude.{◌≡◌, ◌<◌, ◌≤◌, map, IfOk};
ghost use Rattle.share_gadgets.specs.MaskedRun.{words_drawn, masked_run};
ghost use Rattle.share_gadgets.specs.Sharing.{sharing_value};
ghost use Rattle.share_trial.specs.Trial.{outputs_of, trial_inputs, trial_words, trial_of};
ghost use Rattle.usuba0.specs.Circuit.{IsCore};
ghost use Rattle.usuba0.specs.PlainRun.{plain_run};
ghost use Rattle.usuba0.specs.Term.{bits_of_width};

use crate::drawing::{Drawn, draw};
use share_gadgets::{MaskFault, MaskedRun, Sharing, run_masked};
use std::alloc::{AllocError, Global};
use tor_edge::List;
use usuba0::Core;

/// An output of a trial: its word, and its shares.
#[derive(Debug, Drop)]
pub struct TrialOutput {
    pub value: u64,
    pub shares: List<u64>,
}

/// How many shares there are, how many random words were drawn, and the outputs.
#[derive(Debug, Drop)]
pub struct Trial {
    pub shares: u32,
    pub words: u64,
    pub outputs: List<TrialOutput>,
}

// The shares, in order.
fn shares_of<const D: usize>(
    alloc: Global,
    sharing: &Sharing<u64, D>,
) -> Result<List<u64>, AllocError>
    requires { 0 < D }
    ensures { IfOk result (λ shares. shares ≡ sharing.now) }
{
    let mut shares = List::new(alloc);
    for k in 0..D {
        shares.push(sharing.share(k).unwrap())?;
    }
    Ok(shares)
}

// Each output with the value of its shares.
fn outputs_with_values<const D: usize>(
    alloc: Global,
    sharings: &[Sharing<u64, D>],
) -> Result<List<TrialOutput>, AllocError>
    requires { 0 < D }
    ensures { IfOk result (λ outputs. outputs ≡ outputs_of (map sharing_value sharings.now) sharings.now) }
{
    let mut outputs = List::new(alloc);
    for sharing in sharings {
        let shares = shares_of(alloc, sharing)?;
        outputs.push(TrialOutput {
            value: sharing.value(),
            shares,
        })?;
    }
    Ok(outputs)
}

// The masked run of what was drawn, for which there are words enough.
fn run_drawn<const D: usize>(
    alloc: Global,
    core: &Core,
    drawn: &Drawn<D>,
    seed: u64,
) -> Result<MaskedRun<u64, D>, AllocError>
    requires some { 0 < D }
    requires few { D ≤ 8 }
    requires core { IsCore core.now }
    requires inputs { drawn.now.inputs ≡ trial_inputs D core.now seed }
    requires words { drawn.now.words.items ≡ trial_words D core.now seed }
    ensures outputs { IfOk result (λ run. run.outputs
        ≡ masked_run (bits_of_width core.now.width) D core.now
        (trial_inputs D core.now seed) (trial_words D core.now seed)) }
    ensures values { IfOk result (λ run. map sharing_value run.outputs
        ≡ plain_run (bits_of_width core.now.width) core.now (map sharing_value (trial_inputs D core.now seed))) }
    ensures drawn { IfOk result (λ run. run.drawn ≡ words_drawn D core.now) }
{
    match run_masked(alloc, core, &drawn.inputs, drawn.words.as_slice()) {
        Ok(run) => Ok(run),
        Err(MaskFault::Memory(error)) => Err(error),
        Err(MaskFault::WordsShort) => unreachable!(),
    }
}

fn trial_on<const D: usize>(alloc: Global, core: &Core, seed: u64) -> Result<Trial, AllocError>
    requires some { 0 < D }
    requires few { D ≤ 8 }
    ensures { IfOk result (λ trial. trial ≡ trial_of D core.now seed) }
{
    let drawn = draw::<D>(alloc, core, seed)?;
    let run = run_drawn(alloc, core, &drawn, seed)?;
    let outputs = outputs_with_values(alloc, run.outputs.as_slice())?;
    Ok(Trial {
        shares: D as u32,
        words: run.drawn,
        outputs,
    })
}

/// The trial of a core on so many shares, from a seed.
pub fn run_trial(alloc: Global, core: &Core, shares: u32, seed: u64) -> Result<Trial, AllocError>
    requires some { 0 < shares }
    requires few { shares ≤ 8 }
    ensures { IfOk result (λ trial. trial ≡ trial_of shares core.now seed) }
{
    match shares {
        1 => trial_on::<1>(alloc, core, seed),
        2 => trial_on::<2>(alloc, core, seed),
        3 => trial_on::<3>(alloc, core, seed),
        4 => trial_on::<4>(alloc, core, seed),
        5 => trial_on::<5>(alloc, core, seed),
        6 => trial_on::<6>(alloc, core, seed),
        7 => trial_on::<7>(alloc, core, seed),
        _ => trial_on::<8>(alloc, core, seed),
    }
}
