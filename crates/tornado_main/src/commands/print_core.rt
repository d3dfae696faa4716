//! `core FILE`

ghost use Rattle.std.specs.Prelude.{◌∷◌, []};
ghost use Rattle.usuba0.specs.CoreText.{core_text};
ghost use Rattle.tornado_words.specs.Ranges.{HasFitWidth};
ghost use Rattle.tornado_main.specs.Ending.{Ends};
ghost use Rattle.tornado_main.specs.commands.Core.{CoreEnds};

use crate::answer::{Answer, send};
use crate::cores::core_of_file;
use crate::refusal::Refusal;
use crate::status::Status;
use std::alloc::Global;
use tor_edge::{Files, PutFault, Sink};
use tornado_words::Basis;
use usuba0::{Core, write_core};

/// Prints the text of the core.
pub fn print_core<'a, F: Files, O: Sink>(
    alloc: Global,
    file: &'a str,
    basis: &Basis,
    files: &mut F,
    out: &mut O,
) -> Result<Status, Refusal<'a>>
    requires { HasFitWidth basis.now }
    ensures { Ends F.faults F.too_long F.refused F.fetched F.contents O.faults O.written (file.now ∷ [])
        (CoreEnds (F.contents files.old) file.now basis.now)
        files.old files.new out.old out.new result }
{
    let core = core_of_file(alloc, file, basis, files)?;
    send(&core, out)?;
    Ok(Status::Done)
}

impl Answer for Core {
    ghost text = { λ core. core_text core };

    fn write<S: Sink>(&self, sink: &mut S) -> Result<(), PutFault> {
        write_core(self, sink)
    }
}
