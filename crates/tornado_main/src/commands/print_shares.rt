//! `run CFILE DATA`

ghost use Rattle.std.specs.Prelude.{◌≤◌, ◌∷◌, ◌++◌, [], codes, decimal, flat_map, length, IfOk, IfErr};
ghost use Rattle.tor_edge.specs.Written.{Wrote};
ghost use Rattle.tor_edge.specs.declared.files.TheConstants.{MAX_FILE_BYTES};
ghost use Rattle.tornado_main.specs.Ending.{Ends, Fetched, Nowhere, Stops, IsRefusedFor};
ghost use Rattle.tornado_main.specs.Files.{FileIs};
ghost use Rattle.tornado_main.specs.Outcome.{answers};
ghost use Rattle.tornado_main.specs.Steps.{AfterFile};
ghost use Rattle.tornado_main.specs.commands.Run.{RunEnds, RunsTo, CanRun, IsCFile, IsFaultyCFile, SaysRun, IsFaultyRun};
ghost use Rattle.tornado_main.specs.commands.Run.{share_text, output_text, outputs_text};

use crate::answer::{Answer, send};
use crate::fetch::fetch;
use crate::message::Complaint;
use crate::refusal::{Refusal, faulty_call, faulty_file, faulty_line, faulty_place};
use crate::status::Status;
use c_meaning::{CFault, RunFault, RunValues, ValueFault, read_c, read_run, run_c};
use c_tree::CFile;
use std::alloc::Global;
use tor_edge::{Files, List, Piece, PutFault, Sink, put_pieces, put_text};

/// Prints the shares of the outputs of a file of C on the shares and random words of another file.
pub fn print_shares<'a, F: Files, O: Sink>(
    alloc: Global,
    cfile: &'a str,
    values: &'a str,
    files: &mut F,
    out: &mut O,
) -> Result<Status, Refusal<'a>>
    ensures { Ends F.faults F.too_long F.refused F.fetched F.contents O.faults O.written (cfile.now ∷ values.now ∷ [])
        (RunEnds (F.contents files.old) cfile.now values.now) files.old files.new out.old out.new result }
{
    let file = file_of_c(alloc, cfile, files)?;
    let said = run_values(alloc, values, &file, files)?;
    let shares = run_on(alloc, cfile, values, &file, &said)?;
    send(&shares, out)?;
    Ok(Status::Done)
}

// Fetches a file of C and reads it.
fn file_of_c<'a, F: Files>(
    alloc: Global,
    name: &'a str,
    files: &mut F,
) -> Result<CFile, Refusal<'a>>
    ensures fetched { Fetched F.faults F.too_long F.refused F.fetched F.contents (name.now ∷ []) files.old files.new result }
    ensures file { IfOk result (λ file. FileIs (F.contents files.old) name.now (IsCFile file)) }
    ensures bits { IfOk result (λ file. file.reg_bits ≤ 64) }
    ensures refused { IfErr result (λ refusal. Stops
        (AfterFile (F.contents files.old) name.now Status.Values IsCFile IsFaultyCFile Nowhere) refusal) }
{
    let bytes = fetch(alloc, name, files)?;
    file_of_bytes(alloc, name, bytes.as_slice())
}

// The file of C of the bytes of a file.
fn file_of_bytes<'a>(alloc: Global, name: &'a str, bytes: &[u8]) -> Result<CFile, Refusal<'a>>
    requires { length bytes.now ≤ MAX_FILE_BYTES }
    ensures file { IfOk result (λ file. IsCFile file bytes.now) }
    ensures bits { IfOk result (λ file. file.reg_bits ≤ 64) }
    ensures refused { IfErr result (λ refusal. IsRefusedFor Status.Values name.now (λ fault. IsFaultyCFile fault bytes.now) refusal) }
{
    match read_c(alloc, bytes) {
        Ok(file) => Ok(file),
        Err(CFault::Syntax(at)) => {
            Err(faulty_place(Status::Values, name, at, Complaint::Syntax))
        }
        Err(CFault::BadName(at)) => {
            Err(faulty_place(Status::Values, name, at, Complaint::BadName))
        }
        Err(CFault::Memory(_)) => Err(Refusal::Memory),
    }
}

// Fetches the data of a run of a file of C and reads it.
fn run_values<'a, F: Files>(
    alloc: Global,
    name: &'a str,
    file: &CFile,
    files: &mut F,
) -> Result<RunValues, Refusal<'a>>
    requires { file.now.reg_bits ≤ 64 }
    ensures fetched { Fetched F.faults F.too_long F.refused F.fetched F.contents (name.now ∷ []) files.old files.new result }
    ensures said { IfOk result (λ said. FileIs (F.contents files.old) name.now (SaysRun file.now said)) }
    ensures fits { IfOk result (λ said. CanRun file.now said) }
    ensures refused { IfErr result (λ refusal. Stops
        (AfterFile (F.contents files.old) name.now Status.Values (SaysRun file.now) (IsFaultyRun file.now) Nowhere) refusal) }
{
    let bytes = fetch(alloc, name, files)?;
    values_of_bytes(alloc, name, file, bytes.as_slice())
}

// The data of a run of the bytes of a file.
fn values_of_bytes<'a>(
    alloc: Global,
    name: &'a str,
    file: &CFile,
    bytes: &[u8],
) -> Result<RunValues, Refusal<'a>>
    requires bits { file.now.reg_bits ≤ 64 }
    requires few { length bytes.now ≤ MAX_FILE_BYTES }
    ensures said { IfOk result (λ said. SaysRun file.now said bytes.now) }
    ensures fits { IfOk result (λ said. CanRun file.now said) }
    ensures refused { IfErr result (λ refusal. IsRefusedFor Status.Values name.now (λ fault. IsFaultyRun file.now fault bytes.now) refusal) }
{
    match read_run(alloc, bytes, file.inputs, file.reg_bits) {
        Ok(said) => Ok(said),
        Err(ValueFault::Syntax(line)) => {
            Err(faulty_line(Status::Values, name, line, Complaint::Syntax))
        }
        Err(ValueFault::OutOfRange(line)) => {
            Err(faulty_line(Status::Values, name, line, Complaint::OutOfRange))
        }
        Err(ValueFault::Memory(_)) => Err(Refusal::Memory),
    }
}

// The shares of the outputs of a run.
#[derive(Drop)]
struct OutputShares {
    shares: u32,
    outputs: u32,
    words: List<u64>,
}

// Runs a file on the data of a run.
fn run_on<'a>(
    alloc: Global,
    cfile: &'a str,
    values: &'a str,
    file: &CFile,
    said: &RunValues,
) -> Result<OutputShares, Refusal<'a>>
    requires { CanRun file.now said.now }
    ensures shares { IfOk result (λ told. RunsTo cfile.now values.now file.now said.now
        (answers (outputs_text told.shares told.outputs told.words) Status.Done)) }
    ensures refused { IfErr result (λ refusal. Stops (RunsTo cfile.now values.now file.now said.now) refusal) }
{
    match run_c(
        alloc,
        file,
        said.shares,
        said.inputs.as_slice(),
        said.words.as_slice(),
    ) {
        Ok(words) => Ok(OutputShares {
            shares: said.shares,
            outputs: file.outputs,
            words,
        }),
        Err(RunFault::IndexOut(call)) => Err(faulty_call(
            Status::Values,
            cfile,
            call,
            Complaint::IndexOut,
        )),
        Err(RunFault::BadShift(call)) => Err(faulty_call(
            Status::Values,
            cfile,
            call,
            Complaint::BadShift,
        )),
        Err(RunFault::WordsShort) => Err(faulty_file(
            Status::Values,
            values,
            Complaint::WordsShort,
        )),
        Err(RunFault::Memory(_)) => Err(Refusal::Memory),
    }
}

impl Answer for OutputShares {
    ghost text = { λ told. outputs_text told.shares told.outputs told.words };

    fn write<S: Sink>(&self, sink: &mut S) -> Result<(), PutFault> {
        put_outputs(sink, self.shares, self.outputs, self.words.as_slice())
    }
}

fn put_outputs<S: Sink>(
    sink: &mut S,
    shares: u32,
    outputs: u32,
    words: &[u64],
) -> Result<(), PutFault>
    ensures { Wrote S.faults S.written sink.old sink.new (outputs_text shares outputs words.now) result }
{
    let mut rest = words;
    for k in 0..outputs {
        let (row, further) = rest.split_at((shares as usize).min(rest.len()));
        put_output(sink, u64::from(k), row)?;
        rest = further;
    }
    Ok(())
}

fn put_output<S: Sink>(sink: &mut S, number: u64, shares: &[u64]) -> Result<(), PutFault>
    ensures { Wrote S.faults S.written sink.old sink.new (output_text number shares.now) result }
{
    put_head(sink, number)?;
    put_shares(sink, shares)?;
    put_text(sink, "\n")
}

fn put_head<S: Sink>(sink: &mut S, number: u64) -> Result<(), PutFault>
    ensures { Wrote S.faults S.written sink.old sink.new (codes "o" ++ decimal number) result }
{
    put_pieces(sink, &[Piece::Text("o"), Piece::Number(number)])
}

fn put_shares<S: Sink>(sink: &mut S, shares: &[u64]) -> Result<(), PutFault>
    ensures { Wrote S.faults S.written sink.old sink.new (flat_map share_text shares.now) result }
{
    for share in shares {
        put_share(sink, *share)?;
    }
    Ok(())
}

fn put_share<S: Sink>(sink: &mut S, share: u64) -> Result<(), PutFault>
    ensures { Wrote S.faults S.written sink.old sink.new (share_text share) result }
{
    put_pieces(sink, &[Piece::Text(" "), Piece::Number(share)])
}
