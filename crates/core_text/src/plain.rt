//! Equations `rK = xor rA rB`, `rK = and rA rB` and `rK = not rA`, which most lines of a core are. Such lines are read in one pass over
//! their bytes, up to the first that is anything else, also a line with a fault, which is left to be read by its words.
ghost use Rattle.std.specs.Prelude.{◌≡◌, ◌≢◌, ◌+◌, ◌<◌, ◌≤◌, ◌^◌, ◌++◌, ◌∷◌, ℕ, codes, drop, length, if◌then◌else◌, IfOk, IfSome, MatchResult};
ghost use Rattle.core_text.specs.Parts.{EndsLine, IsMemory, TakesEquations};
ghost use Rattle.usuba0.specs.Circuit.{IsEquation};
ghost use Rattle.usuba0.specs.CoreText.{register_text, equation_text};

use crate::fault::CoreFault;
use crate::scan::{after, earlier_register, ends_line, last_register, register};
use text_lines::Lines;
use usuba0::{Gate, Reg};

/// Takes the plain equations that come next, of which the first makes register `next`, and adds them to the others. The answer is the
/// register that is due after them.
#[inline(never)]
pub(crate) fn plain_equations(
    next: u64,
    lines: &mut Lines<'_>,
    equations: &mut Vec<Gate>,
) -> Result<u64, CoreFault>
    requires { next + length lines.old.lines ≤ 2 ^ 33 }
    ensures taken { MatchResult result
        (λ due. (width : ℕ) → width ≤ 64 → TakesEquations width next due equations.old.items equations.new.items lines.old lines.new)
        (λ fault. IsMemory fault) }
    ensures fewer { IfOk result (λ due. (next ≤ due) × (due + length lines.new.lines ≡ next + length lines.old.lines)) }
{
    let bytes = lines.text();
    if !ends_line(bytes) {
        return Ok(next);
    }
    let mut due = next;
    let mut number = lines.number();
    let mut at = 0;
    while at < bytes.len()
        && let Some((gate, end)) = plain_equation(due, bytes, at)
    {
        equations.push(gate)?;
        due += 1;
        number += 1;
        at = end;
    }
    *lines = Lines::from_line(number, &bytes[at..]);
    Ok(due)
}

// An equation that makes register `next`, and the place of the next line.
fn plain_equation(next: u64, bytes: &[u8], at: usize) -> Option<(Gate, usize)>
    requires ends { EndsLine bytes.now }
    requires at { at < length bytes.now }
    ensures text { IfSome result (λ read. drop at bytes.now ≡ equation_text next read.0 ++ drop read.1 bytes.now) }
    ensures within { IfSome result (λ read. read.1 ≤ length bytes.now) }
    ensures small { IfSome result (λ read. next < 2 ^ 32) }
    ensures earlier { IfSome result (λ read. (width : ℕ) → IsEquation width next read.0) }
{
    let right = right_side(next, bytes, at)?;
    if bytes[right] == b'n' {
        let (a, end) = inverted(next, bytes, right)?;
        return Some((Gate::Not(a), end));
    }
    let (is_product, operands) = pair_name(bytes, right)?;
    let (a, b, end) = last_registers(next, bytes, operands)?;
    if is_product {
        Some((Gate::And(a, b), end))
    } else {
        Some((Gate::Xor(a, b), end))
    }
}

// The place after the left side of an equation that makes register `next`.
fn right_side(next: u64, bytes: &[u8], at: usize) -> Option<usize>
    requires ends { EndsLine bytes.now }
    requires at { at < length bytes.now }
    ensures text { IfSome result (λ right. drop at bytes.now ≡ register_text next ++ (codes " = " ++ drop right bytes.now)) }
    ensures within { IfSome result (λ right. right < length bytes.now) }
    ensures small { IfSome result (λ right. next < 2 ^ 32) }
{
    match register(bytes, at)? {
        (Reg(left), end) if u64::from(left) == next => after_equals(bytes, end),
        _ => None,
    }
}

fn after_equals(bytes: &[u8], at: usize) -> Option<usize>
    requires ends { EndsLine bytes.now }
    requires at { at < length bytes.now }
    ensures text { IfSome result (λ right. drop at bytes.now ≡ codes " = " ++ drop right bytes.now) }
    ensures within { IfSome result (λ right. right < length bytes.now) }
{
    let equals = after(b' ', bytes, at)?;
    let blank = after(b'=', bytes, equals)?;
    after(b' ', bytes, blank)
}

// The operand of `not`, which ends a line, and the place of the next line.
fn inverted(next: u64, bytes: &[u8], at: usize) -> Option<(Reg, usize)>
    requires ends { EndsLine bytes.now }
    requires at { at < length bytes.now }
    ensures text { IfSome result (λ read. drop at bytes.now ≡ codes "not " ++ (register_text read.0.0 ++ (codes "\n" ++ drop read.1 bytes.now))) }
    ensures within { IfSome result (λ read. read.1 ≤ length bytes.now) }
    ensures earlier { IfSome result (λ read. read.0.0 < next) }
{
    let operand = after_name(b'n', b'o', b't', bytes, at)?;
    last_register(next, bytes, operand)
}

// Whether the name is `and`, where it is that or `xor`, and the place after it and a blank.
fn pair_name(bytes: &[u8], at: usize) -> Option<(bool, usize)>
    requires ends { EndsLine bytes.now }
    requires at { at < length bytes.now }
    ensures text { IfSome result (λ read. drop at bytes.now ≡ (if read.0 then codes "and " else codes "xor ") ++ drop read.1 bytes.now) }
    ensures within { IfSome result (λ read. read.1 < length bytes.now) }
{
    if bytes[at] == b'a' {
        let operands = after_name(b'a', b'n', b'd', bytes, at)?;
        Some((true, operands))
    } else {
        let operands = after_name(b'x', b'o', b'r', bytes, at)?;
        Some((false, operands))
    }
}

// The place after a name of three letters and a blank.
fn after_name(first: u8, second: u8, third: u8, bytes: &[u8], at: usize) -> Option<usize>
    requires ends { EndsLine bytes.now }
    requires at { at < length bytes.now }
    requires first { first ≢ 10 }
    requires second { second ≢ 10 }
    requires third { third ≢ 10 }
    ensures text { IfSome result (λ end. drop at bytes.now ≡ first ∷ second ∷ third ∷ 32 ∷ drop end bytes.now) }
    ensures within { IfSome result (λ end. end < length bytes.now) }
{
    let rest = after(first, bytes, at)?;
    let last = after(second, bytes, rest)?;
    let blank = after(third, bytes, last)?;
    after(b' ', bytes, blank)
}

// Two earlier registers that end a line, and the place of the next line.
fn last_registers(next: u64, bytes: &[u8], at: usize) -> Option<(Reg, Reg, usize)>
    requires ends { EndsLine bytes.now }
    requires at { at < length bytes.now }
    ensures text { IfSome result (λ read. drop at bytes.now ≡ register_text read.0.0 ++ (codes " " ++ (register_text read.1.0 ++ (codes "\n" ++ drop read.2 bytes.now)))) }
    ensures within { IfSome result (λ read. read.2 ≤ length bytes.now) }
    ensures earlier { IfSome result (λ read. (read.0.0 < next) × (read.1.0 < next)) }
{
    let (a, blank) = earlier_register(next, bytes, at)?;
    let second = after(b' ', bytes, blank)?;
    let (b, end) = last_register(next, bytes, second)?;
    Some((a, b, end))
}
