ghost use Rattle.std.specs.Prelude.{◌≡◌, ◌⊎◌, ◌+◌, ◌<◌, ◌≤◌, ◌^◌, ◌∷◌, None, Some, Ok, Err, true, ℕ, List, Bool, [], length, IfOk, MatchResult};
ghost use Rattle.linear_view.specs.View.{LinearView, IsView};
ghost use Rattle.attack_text.specs.AttackText.{attack_text, first_version_text};
ghost use Rattle.attack_text.specs.Parts.{rest_of, with_every_probe, Reads};
ghost use Rattle.attack_model.specs.Ranges.{InRange};
ghost use Rattle.attack_text.specs.Reading as reading;
ghost use Rattle.attack_model.specs.declared.attack.Attack.{Attack};
ghost use Rattle.attack_model.specs.declared.attack.Derivation.{Derivation};
ghost use Rattle.attack_model.specs.declared.attack.Step.{Step};
ghost use Rattle.attack_text.specs.declared.read.CertFault.{CertFault};
ghost use Rattle.text_lines.specs.Lines.{first_words};

use crate::line::{
    core_line, leak_line, listing_line, probe_line, root_line, step_line, steps_line, version_line,
};
use attack_model::{Attack, Derivation, Listing, MAX_PROBES, Probe, Step};
use gf2_span::BitRow;
use linear_view::View;
use std::alloc::{AllocError, Global};
use text_lines::{Lines, Words};
use thiserror::Error;
use tor_edge::List;

/// Why bytes are no attack on the circuit: the fault of the first line that is wrong. At one line wrong syntax comes first, then a number
/// out of its range.
#[derive(Debug, Drop, Error)]
pub enum CertFault {
    /// The line is not of the form that is due there, or is due and missing, or is left over.
    #[error("syntax")]
    Syntax(u64),
    /// The line has its form, and holds a number or a column that it may not hold.
    #[error("out of range")]
    OutOfRange(u64),
    /// The counts of the line are not those of the circuit.
    #[error("another core")]
    OtherCore(u64),
    #[error("out of memory")]
    Memory(AllocError),
}

impl From<AllocError> for CertFault {
    ghost from_gives = { λ error fault. fault ≡ CertFault.Memory error };

    fn from(error: AllocError) -> Self {
        CertFault::Memory(error)
    }
}

/// Reads an attack on the circuit of a view from a text of version 1 or 2.
pub fn read_attack(alloc: Global, view: &View, bytes: &[u8]) -> Result<Attack, CertFault>
    requires { length bytes.now ≤ 2 ^ 31 }
    ensures attack { reading.IsOrMemory result (reading.attack_of view.now bytes.now) }
    ensures in_range { IfOk result (InRange view.now) }
{
    let mut lines = Lines::new(bytes);
    read_head(view, &mut lines)?;
    let leak = read_leak(alloc, view, &mut lines)?;
    let steps = read_steps(alloc, view, &mut lines)?;
    let root = read_root(alloc, steps.len() as u32, &mut lines)?;
    let listing = read_listing(alloc, view, &mut lines)?;
    if !lines.is_over() {
        return Err(CertFault::Syntax(lines.number()));
    }
    Ok(Attack {
        derivation: Derivation { leak, steps, root },
        listing,
    })
}

// The number of the line that is due, and its words.
fn due_line<'a>(lines: &mut Lines<'a>) -> Result<(u64, Words<'a>), CertFault>
    ensures { MatchResult result
        (λ line. (line.0 ≡ lines.old.number) × (lines.old.lines ≡ Some line.1 ∷ lines.new.lines) × (lines.new.number ≡ line.0 + 1))
        (λ fault. (fault ≡ CertFault.Syntax lines.old.number) × (first_words lines.old.lines ≡ None)) }
{
    let number = lines.number();
    let words = lines.next_line().ok_or(CertFault::Syntax(number))?;
    Ok((number, words))
}

fn read_head(view: &View, lines: &mut Lines<'_>) -> Result<(), CertFault>
    ensures { Reads result (rest_of view.now reading.nothing lines.old) (λ _. rest_of view.now reading.opened lines.new) }
{
    let (line, words) = due_line(lines)?;
    if version_line(line, words)? {
        let (line, words) = due_line(lines)?;
        core_line(view, line, words)?;
    }
    Ok(())
}

fn read_leak(alloc: Global, view: &View, lines: &mut Lines<'_>) -> Result<BitRow, CertFault>
    ensures reads { Reads result (rest_of view.now reading.opened lines.old) (λ leak. rest_of view.now (reading.with_leak leak) lines.new) }
{
    let (line, words) = due_line(lines)?;
    leak_line(alloc, view, line, words)
}

fn read_steps(alloc: Global, view: &View, lines: &mut Lines<'_>) -> Result<List<Step>, CertFault>
    ensures reads { (leak : List Bool) → Reads result (rest_of view.now (reading.with_leak leak) lines.old)
        (λ steps. rest_of view.now (reading.with_steps leak (length steps) steps) lines.new) }
    ensures few { IfOk result (λ steps. length steps < 2 ^ 32) }
{
    let (line, words) = due_line(lines)?;
    let count = steps_line(view, line, words)?;
    let mut steps = List::new(alloc);
    for index in 0..count {
        let (line, words) = due_line(lines)?;
        steps.push(step_line(alloc, view, index, line, words)?)?;
    }
    Ok(steps)
}

fn read_root(alloc: Global, count: u32, lines: &mut Lines<'_>) -> Result<List<u32>, CertFault>
    ensures reads { (view : LinearView) (leak : List Bool) (steps : List Step) → length steps ≡ count
        → Reads result (rest_of view (reading.with_steps leak count steps) lines.old)
        (λ root. rest_of view (reading.with_root (record { leak = leak; steps = steps; root = root })) lines.new) }
{
    let (line, words) = due_line(lines)?;
    root_line(alloc, count, line, words)
}

fn read_listing(alloc: Global, view: &View, lines: &mut Lines<'_>) -> Result<Listing, CertFault>
    ensures reads { (derivation : Derivation) → Reads result (rest_of view.now (reading.with_root derivation) lines.old)
        (λ listing. rest_of view.now (with_every_probe derivation listing) lines.new) }
{
    let (line, words) = due_line(lines)?;
    match listing_line(line, words)? {
        None => Ok(Listing::Large),
        Some(count) => Ok(Listing::Probes(read_probes(alloc, view, count, lines)?)),
    }
}

fn read_probes(
    alloc: Global,
    view: &View,
    count: u32,
    lines: &mut Lines<'_>,
) -> Result<List<Probe>, CertFault>
    requires { count ≤ MAX_PROBES }
    ensures reads { (derivation : Derivation) → Reads result (rest_of view.now (reading.with_probes derivation count []) lines.old)
        (λ probes. rest_of view.now (reading.with_probes derivation count probes) lines.new) }
    ensures count { IfOk result (λ probes. length probes ≡ count) }
{
    let mut probes = List::new(alloc);
    while probes.len() < count as usize {
        let (line, words) = due_line(lines)?;
        probes.push(probe_line(view, count, line, words)?)?;
    }
    Ok(probes)
}

/// What `write_attack` writes of an attack that is in range is read as the same attack.
pub fn written_is_read()
    ensures { (view : LinearView) (attack : Attack) → IsView view → InRange view attack
        → reading.attack_of view (attack_text view attack) ≡ Ok attack }
{}

/// Bytes are read as an attack only where it is in range and they are one of its two texts, that of version 2, which `written_is_read`
/// tells of, or that of version 1, which is read too.
pub fn read_is_written()
    ensures only_written { (view : LinearView) (bytes : List ℕ) (attack : Attack) → IsView view → reading.attack_of view bytes ≡ Ok attack
        → InRange view attack × ((bytes ≡ attack_text view attack) ⊎ (bytes ≡ first_version_text view attack)) }
    ensures first_version { (view : LinearView) (attack : Attack) → IsView view → InRange view attack
        → reading.attack_of view (first_version_text view attack) ≡ Ok attack }
{}
