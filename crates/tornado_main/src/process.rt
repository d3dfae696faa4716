ghost use Rattle.std.specs.Prelude.{◌≡◌, drop, map, string_bytes, IfOk, IfErr, IsErrAnd};
ghost use Rattle.std.specs.Process.{exit_status};
ghost use Rattle.std.specs.Vec.Iter.{into_iter_items};
ghost use Rattle.tornado_main.specs.Process.{lost_status, lost_message, IsReason, EndsWithoutWords, EndsRun};
ghost use Rattle.tornado_main.specs.Run.{Sent};
ghost use Rattle.tornado_main.specs.Status.{code};
ghost use Rattle.tornado_main.specs.declared.process.LostWords.{LostWords};
ghost use Rattle.tornado_main.specs.declared.process.LostWords.TheVariants.{Memory};

use crate::message::{Complaint, write_complaint};
use crate::program::tornado;
use crate::status::Status;
use std::alloc::{AllocError, Global};
use std::env::Args;
use std::io;
use std::process::ExitCode;
use tor_edge::{Files, Sink};

/// Carries out the order of the arguments of the process, the first of which is the program's name, and answers its
/// exit code.
pub fn run<F: Files, O: Sink, E: Sink>(
    alloc: Global,
    args: io::Result<Args>,
    files: &mut F,
    out: &mut O,
    err: &mut E,
) -> ExitCode
    ensures run { IfOk args
        (λ given. EndsRun F.faults F.too_long F.refused F.fetched O.faults O.written E.faults E.written F.contents
        (map string_bytes (drop 1 (into_iter_items given))) files.old files.new out.old out.new err.old err.new
        (exit_status result)) }
    ensures without_words { IfErr args (λ error. (why : LostWords) × IsReason error why
        × EndsWithoutWords E.faults E.written files.old files.new out.old out.new err.old err.new why
        (exit_status result)) }
{
    match words_of(alloc, args) {
        Ok(words) => exit_code(tornado(alloc, &words, files, out, err)),
        Err(lost) => exit_code(lost.tell(err)),
    }
}

fn exit_code(status: Status) -> ExitCode
    ensures { exit_status result ≡ code status }
{
    ExitCode::from(status.code())
}

// Why the words could not be had.
#[derive(Debug, Clone, Copy, Drop)]
enum LostWords {
    // A word is no text.
    NotText,
    // Memory was wanting.
    Memory,
}

impl LostWords {
    fn tell<S: Sink>(self, err: &mut S) -> Status
        ensures status { result ≡ lost_status self }
        ensures told { Sent S.faults S.written err.old err.new (lost_message self) }
    {
        match self {
            LostWords::NotText => {
                let _ = write_complaint(Complaint::BadCommandLine, err);
                Status::Usage
            }
            LostWords::Memory => {
                let _ = write_complaint(Complaint::OutOfMemory, err);
                Status::Memory
            }
        }
    }
}

impl From<io::Error> for LostWords {
    ghost from_gives = { λ error why. IsReason error why };

    fn from(error: io::Error) -> LostWords {
        match error.kind() {
            io::ErrorKind::OutOfMemory => LostWords::Memory,
            _ => LostWords::NotText,
        }
    }
}

impl From<AllocError> for LostWords {
    ghost from_gives = { λ _ why. why ≡ Memory };

    fn from(_error: AllocError) -> LostWords {
        LostWords::Memory
    }
}

// The words after the program's name.
fn words_of(alloc: Global, args: io::Result<Args>) -> Result<Vec<String>, LostWords>
    ensures words { IfOk args (λ given. IfOk result (λ words. words.items ≡ drop 1 (into_iter_items given))) }
    ensures memory { IfOk args (λ given. IfErr result (λ why. why ≡ Memory)) }
    ensures refused { IfErr args (λ error. IsErrAnd result (IsReason error)) }
{
    Ok(after_first(alloc, args?)?)
}

fn after_first(alloc: Global, args: Args) -> Result<Vec<String>, AllocError>
    ensures { IfOk result (λ words. words.items ≡ drop 1 (into_iter_items args)) }
{
    args.skip(1).collect(alloc)
}
