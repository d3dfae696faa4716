//! `trial FILE D SEED`

ghost use Rattle.std.specs.Prelude.{◌<◌, ◌≤◌, ◌∷◌, []};
ghost use Rattle.share_trial.specs.TrialText.{trial_text};
ghost use Rattle.tornado_words.specs.Ranges.{HasFitWidth};
ghost use Rattle.tornado_main.specs.Ending.{Ends};
ghost use Rattle.tornado_main.specs.commands.Trial.{TrialEnds};

use crate::answer::{Answer, send};
use crate::cores::core_of_file;
use crate::refusal::Refusal;
use crate::status::Status;
use share_trial::{Trial, run_trial, write_trial};
use std::alloc::Global;
use tor_edge::{Files, PutFault, Sink};
use tornado_words::Basis;

/// Prints the trial of the core on so many shares, which are drawn from the seed.
pub fn print_trial<'a, F: Files, O: Sink>(
    alloc: Global,
    file: &'a str,
    shares: u32,
    seed: u64,
    basis: &Basis,
    files: &mut F,
    out: &mut O,
) -> Result<Status, Refusal<'a>>
    requires width { HasFitWidth basis.now }
    requires some { 0 < shares }
    requires few { shares ≤ 8 }
    ensures { Ends F.faults F.too_long F.refused F.fetched F.contents O.faults O.written (file.now ∷ [])
        (TrialEnds (F.contents files.old) file.now shares seed basis.now) files.old files.new out.old out.new result }
{
    let core = core_of_file(alloc, file, basis, files)?;
    let trial = run_trial(alloc, &core, shares, seed)?;
    send(&trial, out)?;
    Ok(Status::Done)
}

impl Answer for Trial {
    ghost text = { λ trial. trial_text trial };

    fn write<S: Sink>(&self, sink: &mut S) -> Result<(), PutFault> {
        write_trial(self, sink)
    }
}
