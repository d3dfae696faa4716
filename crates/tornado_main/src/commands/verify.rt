//! `verify FILE ATTACK`

ghost use Rattle.std.specs.Prelude.{◌≡◌, ◌∷◌, ◌≤◌, [], length, IfOk, IfErr};
ghost use Rattle.tor_edge.specs.declared.files.TheConstants.{MAX_FILE_BYTES};
ghost use Rattle.usuba0.specs.Circuit.{Circuit, IsCore};
ghost use Rattle.linear_view.specs.Rows.{core_view};
ghost use Rattle.attack_model.specs.Ranges.{InRange};
ghost use Rattle.tornado_words.specs.Ranges.{HasFitWidth};
ghost use Rattle.tornado_main.specs.Ending.{Ends, Fetched, Stops, IsRefusedFor, Nowhere};
ghost use Rattle.tornado_main.specs.Files.{FileIs};
ghost use Rattle.tornado_main.specs.Steps.{AfterFile};
ghost use Rattle.tornado_main.specs.commands.Verify.{VerifyEnds, SpellsAttack, IsFaultyAttack, IsConfirmation};
ghost use Rattle.tornado_main.specs.Outcome.{answers};

use crate::answer::{Line, send};
use crate::cores::core_of_file;
use crate::fetch::fetch;
use crate::message::Complaint;
use crate::refusal::{Refusal, faulty_line};
use crate::status::Status;
use attack_model::Attack;
use attack_probes::holds;
use attack_text::{CertFault, read_attack};
use linear_view::{View, attacks_are_the_views, view_of};
use std::alloc::{AllocError, Global};
use tor_edge::{Files, Sink};
use tornado_words::Basis;

/// Prints whether the attack of another file holds on the core.
pub fn verify<'a, F: Files, O: Sink>(
    alloc: Global,
    file: &'a str,
    attack: &'a str,
    basis: &Basis,
    files: &mut F,
    out: &mut O,
) -> Result<Status, Refusal<'a>>
    requires { HasFitWidth basis.now }
    ensures { Ends F.faults F.too_long F.refused F.fetched F.contents O.faults O.written (file.now ∷ attack.now ∷ [])
        (VerifyEnds (F.contents files.old) file.now attack.now basis.now) files.old files.new out.old out.new result }
{
    let core = core_of_file(alloc, file, basis, files)?;
    let view = view_of(alloc, &core)?;
    let attack = attack_of_file(alloc, attack, &view, files)?;
    let (line, status) = confirmation(alloc, &view, &attack)?;
    send(&line, out)?;
    Ok(status)
}

// Whether an attack holds on a circuit: what is said of it, and the status.
fn confirmation(alloc: Global, view: &View, attack: &Attack) -> Result<(Line, Status), AllocError>
    requires { InRange view.now attack.now }
    ensures { (core : Circuit) → IsCore core → view.now ≡ core_view core
        → IfOk result (λ said. IsConfirmation core attack.now (answers said.0.0.now said.1)) }
{
    attacks_are_the_views();
    if holds(alloc, view, attack)? {
        Ok((Line("attack holds\n"), Status::Done))
    } else {
        Ok((Line("no attack\n"), Status::Found))
    }
}

// Fetches the file of an attack on a view, and reads it.
fn attack_of_file<'a, F: Files>(
    alloc: Global,
    name: &'a str,
    view: &View,
    files: &mut F,
) -> Result<Attack, Refusal<'a>>
    ensures fetched { Fetched F.faults F.too_long F.refused F.fetched F.contents
        (name.now ∷ []) files.old files.new result }
    ensures attack { IfOk result (λ attack. FileIs (F.contents files.old) name.now (SpellsAttack view.now attack)) }
    ensures in_range { IfOk result (λ attack. InRange view.now attack) }
    ensures refused { IfErr result (λ refusal. Stops
        (AfterFile (F.contents files.old) name.now Status.Values (SpellsAttack view.now)
        (IsFaultyAttack view.now) Nowhere) refusal) }
{
    let bytes = fetch(alloc, name, files)?;
    attack_of_bytes(alloc, name, view, bytes.as_slice())
}

// The attack of the bytes of a file.
fn attack_of_bytes<'a>(
    alloc: Global,
    name: &'a str,
    view: &View,
    bytes: &[u8],
) -> Result<Attack, Refusal<'a>>
    requires { length bytes.now ≤ MAX_FILE_BYTES }
    ensures attack { IfOk result (λ attack. SpellsAttack view.now attack bytes.now) }
    ensures in_range { IfOk result (λ attack. InRange view.now attack) }
    ensures refused { IfErr result
        (λ refusal. IsRefusedFor Status.Values name.now (λ fault. IsFaultyAttack view.now fault bytes.now) refusal) }
{
    match read_attack(alloc, view, bytes) {
        Ok(attack) => Ok(attack),
        Err(CertFault::Syntax(line)) => Err(faulty_line(
            Status::Values,
            name,
            line,
            Complaint::Syntax,
        )),
        Err(CertFault::OutOfRange(line)) => Err(faulty_line(
            Status::Values,
            name,
            line,
            Complaint::OutOfRange,
        )),
        Err(CertFault::OtherCore(line)) => Err(faulty_line(
            Status::Values,
            name,
            line,
            Complaint::OtherCore,
        )),
        Err(CertFault::Memory(_)) => Err(Refusal::Memory),
    }
}
