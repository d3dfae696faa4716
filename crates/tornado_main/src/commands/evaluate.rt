//! `eval FILE DATA`

ghost use Rattle.std.specs.Prelude.{◌≡◌, ◌<◌, ◌≤◌, ◌^◌, ◌∷◌, [], length, All, IfOk, IfErr};
ghost use Rattle.data_text.specs.Writing.{values_text};
ghost use Rattle.tor_edge.specs.declared.files.TheConstants.{MAX_FILE_BYTES};
ghost use Rattle.usuba0.specs.Term.{bits_of_width};
ghost use Rattle.tornado_words.specs.Ranges.{HasFitWidth};
ghost use Rattle.tornado_main.specs.Ending.{Ends, Fetched, Nowhere, Stops, IsRefusedFor};
ghost use Rattle.tornado_main.specs.Files.{FileIs};
ghost use Rattle.tornado_main.specs.Steps.{AfterFile};
ghost use Rattle.tornado_main.specs.commands.Eval.{EvalEnds, SaysInputs, IsFaultyInputs};

use crate::answer::{Answer, send};
use crate::cores::core_of_file;
use crate::fetch::fetch;
use crate::message::Complaint;
use crate::refusal::{Refusal, faulty_line};
use crate::status::Status;
use data_text::{ValueFault, read_values, write_values};
use source_shapes::judged_takes_and_gives;
use source_terms::meanings_agree;
use std::alloc::Global;
use tor_edge::{Files, List, PutFault, Sink};
use tornado_words::Basis;
use usuba0::{Core, run_plain, word_bits};

/// Prints the outputs of the core at the inputs of another file. The run of a source's core is the source's plain meaning.
pub fn evaluate<'a, F: Files, O: Sink>(
    alloc: Global,
    file: &'a str,
    values: &'a str,
    basis: &Basis,
    files: &mut F,
    out: &mut O,
) -> Result<Status, Refusal<'a>>
    requires { HasFitWidth basis.now }
    ensures { Ends F.faults F.too_long F.refused F.fetched F.contents O.faults O.written (file.now ∷ values.now ∷ [])
        (EvalEnds (F.contents files.old) file.now values.now basis.now) files.old files.new out.old out.new result }
{
    judged_takes_and_gives();
    meanings_agree();
    let core = core_of_file(alloc, file, basis, files)?;
    let inputs = inputs_of_file(alloc, values, &core, files)?;
    let outputs = Outputs(run_plain(alloc, &core, inputs.as_slice())?);
    send(&outputs, out)?;
    Ok(Status::Done)
}

// The words of the outputs.
#[derive(Drop)]
struct Outputs(List<u64>);

impl Answer for Outputs {
    ghost text = { λ outputs. values_text outputs.0 };

    fn write<S: Sink>(&self, sink: &mut S) -> Result<(), PutFault> {
        write_values(self.0.as_slice(), sink)
    }
}

// Fetches the file of the inputs of a core, and reads it.
fn inputs_of_file<'a, F: Files>(
    alloc: Global,
    name: &'a str,
    core: &Core,
    files: &mut F,
) -> Result<List<u64>, Refusal<'a>>
    ensures fetched { Fetched F.faults F.too_long F.refused F.fetched F.contents (name.now ∷ []) files.old files.new result }
    ensures inputs { IfOk result (λ inputs. FileIs (F.contents files.old) name.now (SaysInputs core.now inputs)) }
    ensures count { IfOk result (λ inputs. length inputs ≡ core.now.inputs) }
    ensures words { IfOk result (λ inputs. All (λ x. x < 2 ^ bits_of_width core.now.width) inputs) }
    ensures refused { IfErr result (λ refusal. Stops
        (AfterFile (F.contents files.old) name.now Status.Values (SaysInputs core.now) (IsFaultyInputs core.now) Nowhere) refusal) }
{
    let bytes = fetch(alloc, name, files)?;
    inputs_of_bytes(alloc, name, core, bytes.as_slice())
}

// The inputs of the bytes of a file.
fn inputs_of_bytes<'a>(
    alloc: Global,
    name: &'a str,
    core: &Core,
    bytes: &[u8],
) -> Result<List<u64>, Refusal<'a>>
    requires { length bytes.now ≤ MAX_FILE_BYTES }
    ensures inputs { IfOk result (λ inputs. SaysInputs core.now inputs bytes.now) }
    ensures count { IfOk result (λ inputs. length inputs ≡ core.now.inputs) }
    ensures words { IfOk result (λ inputs. All (λ x. x < 2 ^ bits_of_width core.now.width) inputs) }
    ensures refused { IfErr result (λ refusal. IsRefusedFor Status.Values name.now (λ fault. IsFaultyInputs core.now fault bytes.now) refusal) }
{
    match read_values(alloc, bytes, core.inputs(), word_bits(core.width())) {
        Ok(inputs) => Ok(inputs),
        Err(ValueFault::Syntax(line)) => {
            Err(faulty_line(Status::Values, name, line, Complaint::Syntax))
        }
        Err(ValueFault::OutOfRange(line)) => {
            Err(faulty_line(Status::Values, name, line, Complaint::OutOfRange))
        }
        Err(ValueFault::Memory(_)) => Err(Refusal::Memory),
    }
}
