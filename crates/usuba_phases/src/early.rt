ghost use Rattle.std.specs.Prelude.{◌≡◌, option_map, IfOk};
ghost use Rattle.usuba_phases.specs.Early.{IsEarly, PassedOrEarly, EarlyFaultsComeFirst};
ghost use Rattle.usuba_phases.specs.State.Phases.{names_fault, IsAtEntry, IsAfterNames};

use crate::entries::entry_of;
use crate::grids::bad_grid;
use crate::repeated::repeated_name;
use crate::unknown::unknown_name;
use crate::widths::{missing_width, mixed_width, width_of};
use std::alloc::{AllocError, Global};
use tor_edge::Place;
use usuba_model::{Fault, FaultKind};
use usuba_trees::File;

/// What the first five phases come to.
#[derive(Clone, Copy, Drop)]
pub enum Early {
    /// The first fault of the first phase that has one.
    Fault(Fault),
    /// No phase has a fault. The entry is a place among the definitions, counted from 0.
    Passed { width: u32, entry: usize },
}

fn fault_of_names(alloc: Global, file: &File) -> Result<Option<Fault>, AllocError>
    ensures { IfOk result (λ found. found ≡ names_fault file.now) }
{
    let repeated = repeated_name(alloc, file)?;
    if repeated.is_some() {
        return Ok(repeated);
    }
    unknown_name(alloc, file)
}

// What the phases from the fourth on come to for an entry.
fn at_entry(file: &File, asked_width: Option<u32>, entry: usize) -> Early
    ensures { IsAtEntry asked_width file.now entry result }
{
    let Some(width) = width_of(file, asked_width) else {
        return Early::Fault(missing_width(file, entry));
    };
    match mixed_width(file, width).or(bad_grid(file)) {
        Some(fault) => Early::Fault(fault),
        None => Early::Passed { width, entry },
    }
}

// What the phases from the third on come to.
fn after_names(file: &File, asked_width: Option<u32>, asked_entry: Option<&str>) -> Early
    ensures { IsAfterNames asked_width (option_map (λ name. name.now) asked_entry.entry) file.now result }
{
    match entry_of(file, asked_entry) {
        Some(entry) => at_entry(file, asked_width, entry),
        None => Early::Fault(Fault {
            kind: FaultKind::NoEntry,
            place: Place { line: 1, column: 1 },
        }),
    }
}

/// The first fault of the phases up to the fifth, or the width and the entry of the program. A width may be asked for,
/// and the name of an entry.
pub fn early_fault(
    alloc: Global,
    file: &File,
    asked_width: Option<u32>,
    asked_entry: Option<&str>,
) -> Result<Early, AllocError>
    ensures { IfOk result (IsEarly asked_width (option_map (λ name. name.now) asked_entry.entry) file.now) }
{
    match fault_of_names(alloc, file)? {
        Some(fault) => Ok(Early::Fault(fault)),
        None => Ok(after_names(file, asked_width, asked_entry)),
    }
}

/// The first five phases of a file have a fault, or it has a width and an entry.
pub fn passed_or_early()
    ensures { PassedOrEarly }
{}

/// A fault of these phases is the first of the file; where they have none, the first is that of the later phases.
pub fn early_faults_come_first()
    ensures { EarlyFaultsComeFirst }
{}
