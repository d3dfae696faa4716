//! `repair FILE`

ghost use Rattle.std.specs.Prelude.{◌∷◌, []};
ghost use Rattle.tornado_words.specs.Ranges.{HasFitWidth};
ghost use Rattle.tornado_main.specs.Ending.{Ends};
ghost use Rattle.tornado_main.specs.commands.Repair.{RepairEnds};

use crate::answer::send;
use crate::cores::core_of_file;
use crate::refusal::Refusal;
use crate::status::Status;
use refresh_place::repair;
use std::alloc::Global;
use tor_edge::{Files, Sink};
use tornado_words::Basis;

/// Prints the text of the core with refreshes after which it has no attack.
pub fn print_repaired<'a, F: Files, O: Sink>(
    alloc: Global,
    file: &'a str,
    basis: &Basis,
    files: &mut F,
    out: &mut O,
) -> Result<Status, Refusal<'a>>
    requires { HasFitWidth basis.now }
    ensures { Ends F.faults F.too_long F.refused F.fetched F.contents O.faults O.written (file.now ∷ [])
        (RepairEnds (F.contents files.old) file.now basis.now) files.old files.new out.old out.new result }
{
    let core = core_of_file(alloc, file, basis, files)?;
    let repaired = repair(alloc, &core)?;
    send(&repaired.core, out)?;
    Ok(Status::Done)
}
