ghost use Rattle.std.specs.Prelude.{◌≡◌, ℕ, ◌≤◌, List, length, option_map, IfOk, IfErr, IfSome};
ghost use Rattle.tor_edge.specs.declared.files.TheConstants.{MAX_FILE_BYTES};
ghost use Rattle.flatten.specs.CoreOf.{IsCoreOf};
ghost use Rattle.source_shapes.specs.Shaped.{IsWidth};
ghost use Rattle.usuba_syntax.specs.Sources.{SpellsFile};
ghost use Rattle.usuba_types.specs.Judged.{IsSpelled};
ghost use Rattle.usuba0.specs.Circuit.{Circuit, IsSmall, HasFewColumns};
ghost use Rattle.tornado_main.specs.Ending.{IsRefusedFor};
ghost use Rattle.tornado_main.specs.Source.{IsSource, PassesLimit, IsFaultySource};

use crate::message::Complaint;
use crate::refusal::{Refusal, faulty_file, faulty_place};
use crate::status::Status;
use flatten::{FlatFault, core_of};
use std::alloc::Global;
use usuba_syntax::{ReadFault, read_file};
use usuba_trees::File;
use usuba_types::{JudgeFault, Judged, judge};
use usuba0::Core;

/// The core of the bytes of a source, for the width and the entry that are asked for, where they are.
pub fn core_of_source<'a>(
    alloc: Global,
    name: &'a str,
    width: Option<u32>,
    entry: Option<&str>,
    bytes: &[u8],
) -> Result<Core, Refusal<'a>>
    requires width { IfSome width IsWidth }
    requires few { length bytes.now ≤ MAX_FILE_BYTES }
    ensures core { IfOk result (λ core. IsSource width (option_map (λ text. text.now) entry.entry) core bytes.now) }
    ensures within { IfOk result (λ core. IsSmall core × HasFewColumns core) }
    ensures refused { IfErr result (λ refusal. IsRefusedFor Status.Source name.now
        (λ fault. IsFaultySource width (option_map (λ text. text.now) entry.entry) fault bytes.now) refusal) }
{
    match read_file(alloc, bytes) {
        Ok(file) => core_of_tree(alloc, name, width, entry, file),
        Err(ReadFault::Syntax(at)) => Err(faulty_place(
            Status::Source,
            name,
            at,
            Complaint::Syntax,
        )),
        Err(ReadFault::TooDeep(at)) => Err(faulty_place(
            Status::Source,
            name,
            at,
            Complaint::TooDeep,
        )),
        Err(ReadFault::NumberTooBig(at)) => Err(faulty_place(
            Status::Source,
            name,
            at,
            Complaint::NumberTooBig,
        )),
        Err(ReadFault::Memory(_)) => Err(Refusal::Memory),
    }
}

// The core of a file that was read.
fn core_of_tree<'a>(
    alloc: Global,
    name: &'a str,
    width: Option<u32>,
    entry: Option<&str>,
    file: File,
) -> Result<Core, Refusal<'a>>
    requires width { IfSome width IsWidth }
    requires spelled { IsSpelled file }
    ensures core { IfOk result (λ core. (bytes : List ℕ) → SpellsFile bytes file
        → IsSource width (option_map (λ text. text.now) entry.entry) core bytes) }
    ensures within { IfOk result (λ core. IsSmall core × HasFewColumns core) }
    ensures refused { IfErr result (λ refusal. (bytes : List ℕ) → SpellsFile bytes file
        → IsRefusedFor Status.Source name.now
        (λ fault. IsFaultySource width (option_map (λ text. text.now) entry.entry) fault bytes) refusal) }
{
    match judge(alloc, file, width, entry) {
        Ok(judged) => core_of_judged(alloc, name, &judged),
        Err(JudgeFault::At(kind, place)) => Err(faulty_place(
            Status::Source,
            name,
            place,
            Complaint::Judged(kind),
        )),
        Err(JudgeFault::Memory(_)) => Err(Refusal::Memory),
    }
}

// The core of a file that was judged.
fn core_of_judged<'a>(alloc: Global, name: &'a str, judged: &Judged) -> Result<Core, Refusal<'a>>
    ensures core { IfOk result (IsCoreOf judged.now) }
    ensures within { IfOk result (λ core. IsSmall core × HasFewColumns core) }
    ensures refused { IfErr result (IsRefusedFor Status.Source name.now
        (λ fault. (core : Circuit) × IsCoreOf judged.now core × PassesLimit core fault)) }
{
    match core_of(alloc, judged) {
        Ok(core) => Ok(core),
        Err(FlatFault::CoreTooLarge) => Err(faulty_file(
            Status::Source,
            name,
            Complaint::CoreTooLarge,
        )),
        Err(FlatFault::ColumnsTooMany) => Err(faulty_file(
            Status::Source,
            name,
            Complaint::ColumnsTooMany,
        )),
        Err(FlatFault::Memory(_)) => Err(Refusal::Memory),
    }
}
