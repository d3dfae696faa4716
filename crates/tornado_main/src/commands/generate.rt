//! `gen SEED SIZE`

ghost use Rattle.std.specs.Prelude.{◌≡◌, ◌<◌, ◌≤◌, ℕ, List, None, IfOk, MatchBool};
ghost use Rattle.span_model.specs.Attack.{Product, HasAttack};
ghost use Rattle.usuba0.specs.Circuit.{IsCore, IsSmall, HasFewColumns};
ghost use Rattle.tightprove.specs.Verdict.{IsVerdictOf};
ghost use Rattle.source_gen.specs.Report.{report_text};
ghost use Rattle.source_gen.specs.Source.{generated_source};
ghost use Rattle.source_gen.specs.declared.source.TheConstants.{MAX_SIZE};
ghost use Rattle.tornado_main.specs.Ending.{Shown};
ghost use Rattle.tornado_main.specs.Source.{IsSource};
ghost use Rattle.tornado_main.specs.commands.Gen.{IsReport, GenEnds};

use crate::answer::{Answer, send};
use crate::refusal::Refusal;
use crate::sources::core_of_source;
use crate::status::Status;
use generated_files::generated_is_clean;
use linear_view::{attacks_are_the_views, view_of};
use source_gen::{Report, source_of, write_report};
use std::alloc::{AllocError, Global};
use tightprove::{Verdict, search};
use tor_edge::{PutFault, Sink};
use usuba0::Core;

/// Prints a report on the source that is generated from a seed: the size of its core, and whether this has an attack.
pub fn generate<'a, O: Sink>(
    alloc: Global,
    seed: u64,
    size: u32,
    out: &mut O,
) -> Result<Status, Refusal<'a>>
    requires some { 0 < size }
    requires few { size ≤ MAX_SIZE }
    ensures { Shown O.faults O.written (GenEnds seed size) out.old out.new result }
{
    let report = report_on(alloc, seed, u64::from(size))?;
    send(&report, out)?;
    Ok(Status::Done)
}

impl Answer for Report {
    ghost text = { λ report. report_text report };

    fn write<S: Sink>(&self, sink: &mut S) -> Result<(), PutFault> {
        write_report(*self, sink)
    }
}

fn report_on(alloc: Global, seed: u64, size: u64) -> Result<Report, AllocError>
    requires some { 0 < size }
    requires few { size ≤ MAX_SIZE }
    ensures { IfOk result (IsReport seed size) }
{
    attacks_are_the_views();
    let core = generated_core(alloc, seed, size)?;
    let view = view_of(alloc, &core)?;
    let verdict = search(alloc, &view)?;
    Ok(Report {
        seed,
        size,
        equations: u64::from(core.equations()),
        columns: u64::from(view.columns()),
        secure: is_secure(&verdict),
    })
}

// The core of the generated source, in which nothing is at fault.
fn generated_core(alloc: Global, seed: u64, size: u64) -> Result<Core, AllocError>
    requires some { 0 < size }
    requires few { size ≤ MAX_SIZE }
    ensures core { IfOk result (λ core. IsSource None None core (generated_source seed size)) }
    ensures within { IfOk result (λ core. IsSmall core × HasFewColumns core) }
{
    generated_is_clean();
    let bytes = source_of(alloc, seed, size)?;
    match core_of_source(alloc, "", None, None, bytes.as_slice()) {
        Ok(core) => Ok(core),
        Err(Refusal::Memory) => Err(AllocError),
        Err(Refusal::Faulty(_, _, _)) => unreachable!(),
        Err(Refusal::Unread(_, _)) => unreachable!(),
        Err(Refusal::Unwritten) => unreachable!(),
    }
}

fn is_secure(verdict: &Verdict) -> bool
    ensures { (columns : ℕ) (products : List (Product ℕ)) → IsVerdictOf columns products verdict.now
        → MatchBool result (¬ HasAttack products) (HasAttack products) }
{
    match verdict {
        Verdict::Secure => true,
        Verdict::Leak(_) => false,
    }
}
