//! `compile FILE`

ghost use Rattle.std.specs.Prelude.{◌≡◌, ◌≢◌, ◌∷◌, [], IfOk, IfErr, IfSome, IsSome};
ghost use Rattle.c_text.specs.CText.{c_text};
ghost use Rattle.c_print.specs.WordSize.{FitsWord};
ghost use Rattle.usuba0.specs.Circuit.{IsCore, IsSmall, HasFewColumns};
ghost use Rattle.tornado_words.specs.Ranges.{HasFitWidth, IsWordSize};
ghost use Rattle.tornado_main.specs.Ending.{Ends, Stops};
ghost use Rattle.tornado_main.specs.commands.Compile.{CompileEnds, IsCompiled, IsMaskedC};

use crate::answer::{Answer, send};
use crate::cores::core_of_file;
use crate::message::Complaint;
use crate::refusal::{Refusal, faulty_file};
use crate::status::Status;
use c_print::{masked_file, write_c};
use c_tree::CFile;
use refresh_place::repair;
use std::alloc::{AllocError, Global};
use tor_edge::{Files, PutFault, Sink};
use tornado_words::Basis;
use usuba0::Core;

/// Prints the C of the masked form of the repaired core, for words of these bits where they are given.
pub fn compile<'a, F: Files, O: Sink>(
    alloc: Global,
    file: &'a str,
    word: Option<u32>,
    basis: &Basis,
    files: &mut F,
    out: &mut O,
) -> Result<Status, Refusal<'a>>
    requires size { IfSome word IsWordSize }
    requires width { HasFitWidth basis.now }
    ensures { Ends F.faults F.too_long F.refused F.fetched F.contents O.faults O.written (file.now ∷ [])
        (CompileEnds (F.contents files.old) file.now word basis.now) files.old files.new out.old out.new result }
{
    let core = core_of_file(alloc, file, basis, files)?;
    let c_file = c_of_core(alloc, file, &core, word)?;
    send(&c_file, out)?;
    Ok(Status::Done)
}

impl Answer for CFile {
    ghost text = { λ c_file. c_text c_file };

    fn write<S: Sink>(&self, sink: &mut S) -> Result<(), PutFault> {
        write_c(self, sink)
    }
}

// The C of a core, where its width is one for which the bits may be given.
fn c_of_core<'a>(
    alloc: Global,
    file: &'a str,
    core: &Core,
    word: Option<u32>,
) -> Result<CFile, Refusal<'a>>
    requires core { IsCore core.now }
    requires within { IsSmall core.now × HasFewColumns core.now }
    requires size { IfSome word IsWordSize }
    ensures masked { IfOk result (IsMaskedC core.now word) }
    ensures refused { IfErr result (Stops (IsCompiled file.now word core.now)) }
{
    if word.is_some() && core.width() != 1 {
        return Err(faulty_file(Status::Source, file, Complaint::WordSize));
    }
    let c_file = masked(alloc, core, word)?;
    Ok(c_file)
}

// The masked form of the repaired core.
fn masked(alloc: Global, core: &Core, word: Option<u32>) -> Result<CFile, AllocError>
    requires core { IsCore core.now }
    requires within { IsSmall core.now × HasFewColumns core.now }
    requires fits { FitsWord word core.now }
    ensures { IfOk result (IsMaskedC core.now word) }
{
    let repaired = repair(alloc, core)?;
    masked_file(alloc, &repaired.core, word)
}
