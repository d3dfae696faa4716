ghost use Rattle.std.specs.Prelude.{◌≡◌, ◌+◌, ◌<◌, ◌≤◌, ◌^◌, ◌∷◌, Some, Ok, Err, true, ℕ, List, length, MatchOption, MatchResult, IfOk};
ghost use Rattle.core_text.specs.Parts.{rest_of, AreOutputsDue, IsAnswer, TakesEquation, answer_kept, kept_body};
ghost use Rattle.core_text.specs.Ranges as ranges;
ghost use Rattle.core_text.specs.Reading as reading;
ghost use Rattle.text_lines.specs.Lines.{first_words};
ghost use Rattle.usuba0.specs.Circuit.{Circuit, IsCore, IsSmall, HasFewColumns};
ghost use Rattle.usuba0.specs.CoreText.{core_text};

use crate::fault::CoreFault;
use crate::line::{equation_line, inputs_line, is_outputs, outputs_line, width_line};
use crate::plain::plain_equations;
use std::alloc::Global;
use text_lines::{Lines, Words};
use usuba0::{Core, Gate, MAX_COLUMNS, Reg};

/// Reads a core from its text.
pub fn read_core(alloc: Global, bytes: &[u8]) -> Result<Core, CoreFault>
    requires { length bytes.now ≤ 2 ^ 31 }
    ensures { reading.IsOrMemory result (reading.core_of bytes.now) }
{
    let mut lines = Lines::new(bytes);
    let (width, inputs) = read_head(&mut lines)?;
    let read = read_body(alloc, width, inputs, &mut lines)?;
    core_within(width, inputs, read)
}

/// The equations and the outputs of a text.
#[derive(Drop)]
pub(crate) struct Read {
    pub(crate) equations: Vec<Gate>,
    pub(crate) outputs: Vec<Reg>,
}

// The number of the line that is due, and its words.
fn due_line<'a>(lines: &mut Lines<'a>) -> Result<(u64, Words<'a>), CoreFault>
    ensures { MatchResult result
        (λ line. (line.0 ≡ lines.old.number) × (lines.old.lines ≡ Some line.1 ∷ lines.new.lines) × (lines.new.number ≡ line.0 + 1))
        (λ fault. (fault ≡ CoreFault.Syntax lines.old.number) × (first_words lines.old.lines ≡ None)) }
{
    let number = lines.number();
    let words = lines.next_line().ok_or(CoreFault::Syntax(number))?;
    Ok((number, words))
}

// The width and the inputs.
fn read_head(lines: &mut Lines<'_>) -> Result<(u32, u32), CoreFault>
    requires { lines.old.number ≡ 1 }
    ensures text { MatchResult result
        (λ head. reading.from_width lines.old.lines ≡ reading.circuit_with head.0 head.1 (rest_of head.0 head.1 lines.new))
        (λ fault. reading.from_width lines.old.lines ≡ Err fault) }
    ensures width { IfOk result (λ head. (0 < head.0) × (head.0 ≤ 64)) }
    ensures fewer { IfOk result (λ head. length lines.new.lines ≤ length lines.old.lines) }
{
    let (line, words) = due_line(lines)?;
    let width = width_line(line, words)?;
    let (line, words) = due_line(lines)?;
    let inputs = inputs_line(line, words)?;
    Ok((width, inputs))
}

// The equations and the outputs, where the first equation makes register `inputs`.
fn read_body(
    alloc: Global,
    width: u32,
    inputs: u32,
    lines: &mut Lines<'_>,
) -> Result<Read, CoreFault>
    requires width { width ≤ 64 }
    requires few { length lines.old.lines ≤ 2 ^ 32 }
    ensures { IsAnswer (λ read. record { equations = read.equations.items; outputs = read.outputs.items }) result
        (answer_kept kept_body (rest_of width inputs lines.old)) }
{
    let mut equations = Vec::new(alloc);
    let mut next = plain_equations(u64::from(inputs), lines, &mut equations)?;
    while let Some(gate) = next_equation(width, next, lines)? {
        equations.push(gate)?;
        next = plain_equations(next + 1, lines, &mut equations)?;
    }
    let (line, words) = due_line(lines)?;
    let outputs = outputs_line(alloc, next, line, words)?;
    if !lines.is_over() {
        return Err(CoreFault::Syntax(lines.number()));
    }
    Ok(Read { equations, outputs })
}

// Takes the equation that makes register `next`, where the outputs are not due.
fn next_equation(width: u32, next: u64, lines: &mut Lines<'_>) -> Result<Option<Gate>, CoreFault>
    requires { width ≤ 64 }
    ensures { MatchResult result
        (λ said. MatchOption said ((lines.new ≡ lines.old) × AreOutputsDue lines.old)
        (λ gate. TakesEquation width next gate lines.old lines.new))
        (λ fault. answer_kept kept_body (rest_of width next lines.old) ≡ Err fault) }
{
    let mut later = lines.copy();
    let (line, words) = due_line(&mut later)?;
    if is_outputs(words.copy()) {
        return Ok(None);
    }
    let gate = equation_line(width, next, line, words)?;
    *lines = later;
    Ok(Some(gate))
}

// The core, if it is within the limits. The registers of one with more inputs than columns may have been cut.
fn core_within(width: u32, inputs: u32, read: Read) -> Result<Core, CoreFault>
    requires some_width { 0 < width }
    requires few_equations { length read.equations.items < 2 ^ 32 }
    requires few_outputs { length read.outputs.items < 2 ^ 32 }
    requires core { inputs ≤ MAX_COLUMNS
        → IsCore (record { width = width; inputs = inputs; equations = read.equations.items; outputs = read.outputs.items }) }
    ensures { result ≡ reading.within_limits
        (Ok (record { width = width; inputs = inputs; equations = read.equations.items; outputs = read.outputs.items })) }
{
    let Read { equations, outputs } = read;
    if u64::from(inputs) > MAX_COLUMNS {
        return Err(CoreFault::Limit);
    }
    let core = Core::new(width, inputs, equations, outputs);
    if core.fits() {
        Ok(core)
    } else {
        Err(CoreFault::Limit)
    }
}

/// What is written of a core within the limits is read as the same core.
pub fn written_is_read()
    ensures { (core : Circuit) → IsCore core → IsSmall core → HasFewColumns core
        → reading.core_of (core_text core) ≡ Ok core }
{}

/// Bytes are read as a core only where it is one, is within the limits, and they are its text.
pub fn read_is_written()
    ensures { (bytes : List ℕ) (core : Circuit) → reading.core_of bytes ≡ Ok core
        → IsCore core × IsSmall core × HasFewColumns core × (bytes ≡ core_text core) }
{}

/// Bytes are read as a core or have a fault.
pub fn core_or_fault()
    ensures { (bytes : List ℕ) → reading.IsCoreOrFault (reading.core_of bytes) }
{}
