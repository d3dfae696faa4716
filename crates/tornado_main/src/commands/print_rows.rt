//! `rows FILE`

ghost use Rattle.std.specs.Prelude.{◌∷◌, []};
ghost use Rattle.linear_view.specs.RowsText.{rows_text};
ghost use Rattle.tornado_words.specs.Ranges.{HasFitWidth};
ghost use Rattle.tornado_main.specs.Ending.{Ends};
ghost use Rattle.tornado_main.specs.commands.Rows.{RowsEnds};

use crate::answer::{Answer, send};
use crate::cores::core_of_file;
use crate::refusal::Refusal;
use crate::status::Status;
use linear_view::{View, view_of, write_rows};
use std::alloc::Global;
use tor_edge::{Files, PutFault, Sink};
use tornado_words::Basis;

/// Prints the rows of the operands of the core's products.
pub fn print_rows<'a, F: Files, O: Sink>(
    alloc: Global,
    file: &'a str,
    basis: &Basis,
    files: &mut F,
    out: &mut O,
) -> Result<Status, Refusal<'a>>
    requires { HasFitWidth basis.now }
    ensures { Ends F.faults F.too_long F.refused F.fetched F.contents O.faults O.written (file.now ∷ [])
        (RowsEnds (F.contents files.old) file.now basis.now)
        files.old files.new out.old out.new result }
{
    let core = core_of_file(alloc, file, basis, files)?;
    let view = view_of(alloc, &core)?;
    send(&view, out)?;
    Ok(Status::Done)
}

impl Answer for View {
    ghost text = { λ view. rows_text view };

    fn write<S: Sink>(&self, sink: &mut S) -> Result<(), PutFault> {
        write_rows(self, sink)
    }
}
