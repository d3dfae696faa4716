ghost use Rattle.std.specs.Prelude.{◌≡◌, option_map, IfSome, IfOk, IfErr};
ghost use Rattle.usuba_types.specs.declared.judging.JudgeFault.TheVariants.{Memory};
ghost use Rattle.source_shapes.specs.Shaped.{IsWidth};
ghost use Rattle.usuba_types.specs.Judged.{IsSpelled, IsRefusal, IsJudgedAs, IsProgram, inputs_at, outputs_at};
ghost use Rattle.usuba_types.specs.State.Deciding.{WasPassed, IsClean, IsLaterRefusal};

use crate::counts::{Counts, counts_of};
use crate::passing::later_fault;
use std::alloc::{AllocError, Global};
use std::marker::Model;
use thiserror::Error;
use tor_edge::Place;
use usuba_model::FaultKind;
use usuba_phases::{Early, early_fault, early_faults_come_first};
use usuba_trees::File;

/// A file that bytes spell and that passed all ten phases, with its width of 1 to 64 bits and its entry, which takes and gives
/// at least one element.
#[derive(Drop)]
pub struct Judged {
    file: File,
    width: u32,
    entry: usize,
}

impl Model for Judged {
    ghost use Rattle.std.specs.Coded.{codes};
    ghost use Rattle.usuba_trees.specs.contracts.Item as item;
    ghost use Rattle.usuba_types.specs.Judged.{Program, IsProgram};

    ghost Value = { Program };

    ghost coded = { Prim.hlevel (codes, item.the_row.coded) };

    ghost view = { λ j. record { file = j.file; width = j.width; entry = j.entry } };

    ghost invariant = { λ j. IsProgram (record { file = j.file; width = j.width; entry = j.entry }) };
}

/// Why a file is not judged.
#[derive(Debug, Drop, Error)]
pub enum JudgeFault {
    /// The first fault of the first phase that has one.
    #[error("the source has a fault")]
    At(FaultKind, Place),
    #[error("out of memory")]
    Memory(AllocError),
}

impl From<AllocError> for JudgeFault {
    ghost from_gives = { λ error fault. fault ≡ Memory error };

    fn from(error: AllocError) -> Self {
        JudgeFault::Memory(error)
    }
}

impl Judged {
    pub fn file(&self) -> &File
        ensures { result.now ≡ self.now.file }
    {
        &self.file
    }

    /// The bits of an element, 1 to 64.
    pub fn width(&self) -> u32
        ensures bits { result ≡ self.now.width }
        ensures program { IsProgram self.now }
    {
        self.width
    }

    /// The entry's place among the definitions, from 0.
    pub fn entry(&self) -> usize
        ensures { result ≡ self.now.entry }
    {
        self.entry
    }

    /// How many elements the entry takes.
    pub fn input_count(&self) -> u32
        ensures { result ≡ inputs_at self.now.file.defs self.now.entry }
    {
        self.entry_counts().inputs
    }

    /// How many elements the entry gives.
    pub fn output_count(&self) -> u32
        ensures { result ≡ outputs_at self.now.file.defs self.now.entry }
    {
        self.entry_counts().outputs
    }

    fn entry_counts(&self) -> Counts
        ensures inputs { result.inputs ≡ inputs_at self.now.file.defs self.now.entry }
        ensures outputs { result.outputs ≡ outputs_at self.now.file.defs self.now.entry }
    {
        counts_of(&self.file.defs.as_slice()[self.entry])
    }
}

// What the later phases come to for a file that passed the first five.
fn judge_passed(alloc: Global, file: File, width: u32, entry: usize) -> Result<Judged, JudgeFault>
    requires { WasPassed file width entry }
    ensures program { IfOk result (IsClean file width entry) }
    ensures refusal { IfErr result (IsLaterRefusal file width entry) }
{
    early_faults_come_first();
    match later_fault(alloc, width, &file, entry)? {
        Some(fault) => Err(JudgeFault::At(fault.kind, fault.place)),
        None => Ok(Judged { file, width, entry }),
    }
}

/// Judges a file at the width and for the entry that are asked for; where none is asked for, the width is the first of a
/// type, and the entry is the last node. On a refusal the file is dropped.
pub fn judge(
    alloc: Global,
    file: File,
    width: Option<u32>,
    entry: Option<&str>,
) -> Result<Judged, JudgeFault>
    requires wide { IfSome width IsWidth }
    requires spelled { IsSpelled file }
    ensures program { IfOk result (IsJudgedAs width (option_map (λ name. name.now) entry.entry) file) }
    ensures refusal { IfErr result (IsRefusal width (option_map (λ name. name.now) entry.entry) file) }
{
    early_faults_come_first();
    match early_fault(alloc, &file, width, entry)? {
        Early::Fault(fault) => Err(JudgeFault::At(fault.kind, fault.place)),
        Early::Passed {
            width: of_program,
            entry: at,
        } => judge_passed(alloc, file, of_program, at),
    }
}
