ghost use Rattle.std.specs.Prelude.{◌≡◌, ℕ, ◌+◌, ◌<◌, ◌≤◌, ◌↔◌, [], length, slice_index_or, All, IsTrue, IfOk, MatchBool};
ghost use Rattle.std.specs.Bool.{OnTrue};
ghost use Rattle.span_model.specs.Columns.{set_of};
ghost use Rattle.span_model.specs.Span.{InSpan};
ghost use Rattle.span_model.specs.Attack.{IsLeak, IsAttack, IsProbe};
ghost use Rattle.linear_view.specs.View.{products_of};
ghost use Rattle.attack_model.specs.Derivations.{IsInOrder};
ghost use Rattle.attack_model.specs.Ranges.{InRange, probe_of};
ghost use Rattle.attack_probes.specs.Derivations.{IsDerived, IsSound};
ghost use Rattle.attack_probes.specs.Listings.{Holds, probes_of};
ghost use Rattle.attack_probes.specs.Operands.{rows_of, co_operands_of, operands_at};

use attack_model::{Attack, Derivation, Listing, Operand, Probe, Side, Step};
use gf2_span::{BitRow, Span};
use linear_view::View;
use std::alloc::{AllocError, Global};
use tor_edge::List;

// Whether the rows of the operands span the leak.
fn spans(
    alloc: Global,
    view: &View,
    operands: &[Operand],
    leak: &BitRow,
) -> Result<bool, AllocError>
    requires columns { length leak.now ≡ length view.now.columns }
    requires within { All (λ operand. operand.product < length view.now.products) operands.now }
    ensures { IfOk result (λ answer. MatchBool answer
        (InSpan (rows_of (products_of view.now) operands.now) (set_of leak.now))
        (¬ InSpan (rows_of (products_of view.now) operands.now) (set_of leak.now))) }
{
    let columns = view.columns();
    let mut span = Span::new(alloc, columns)?;
    for operand in operands {
        span.insert_all(alloc, view.operand(*operand))?;
    }
    let mut scratch = BitRow::new(alloc, columns)?;
    Ok(span.contains(leak, &mut scratch))
}

// The co-operands of the steps of these numbers.
fn co_operands(alloc: Global, steps: &[Step], uses: &[u32]) -> Result<Vec<Operand>, AllocError>
    requires { All (λ k. k < length steps.now) uses.now }
    ensures { IfOk result (λ operands. operands.items ≡ co_operands_of steps.now uses.now) }
{
    let mut operands = Vec::new(alloc);
    for k in uses {
        operands.push(steps[*k as usize].operand().other())?;
    }
    Ok(operands)
}

// For each share from 0 to the count of the probes, the operands that the probes show there.
fn operands_by_share(alloc: Global, probes: &[Probe]) -> Result<Vec<List<Operand>>, AllocError>
    requires left { All (λ probe. probe.left_share ≤ length probes.now) probes.now }
    requires right { All (λ probe. probe.right_share ≤ length probes.now) probes.now }
    ensures { IfOk result (λ shares. (length shares.items ≡ length probes.now + 1) × ((s : ℕ) → s ≤ length probes.now → slice_index_or shares.items s [] ≡ operands_at probes.now s)) }
{
    let mut shares = Vec::new(alloc);
    for _share in 0..probes.len() + 1 {
        shares.push(List::new(alloc))?;
    }
    for probe in probes {
        let Probe {
            product,
            left_share,
            right_share,
        } = *probe;
        shares[left_share as usize].push(Operand {
            product,
            side: Side::Left,
        })?;
        shares[right_share as usize].push(Operand {
            product,
            side: Side::Right,
        })?;
    }
    Ok(shares)
}

// Whether the leak is an attack with the probes.
fn probes_hold(
    alloc: Global,
    view: &View,
    leak: &BitRow,
    probes: &[Probe],
) -> Result<bool, AllocError>
    requires columns { length leak.now ≡ length view.now.columns }
    requires within { All (λ listed. IsProbe (length view.now.products) (length probes.now) (probe_of listed)) probes.now }
    ensures { IfOk result (λ answer. IsTrue answer ↔ IsAttack (products_of view.now) (length probes.now) (set_of leak.now) (probes_of probes.now)) }
{
    if leak.is_zero() {
        return Ok(false);
    }
    let shares = operands_by_share(alloc, probes)?;
    for operands in &shares {
        if !spans(alloc, view, operands.as_slice(), leak)? {
            return Ok(false);
        }
    }
    Ok(true)
}

// Whether the step's operand with the co-operands of its uses spans the leak.
fn step_spans(
    alloc: Global,
    view: &View,
    leak: &BitRow,
    steps: &[Step],
    step: &Step,
) -> Result<bool, AllocError>
    requires columns { length leak.now ≡ length view.now.columns }
    requires products { All (λ step. step.product < length view.now.products) steps.now }
    requires product { step.now.product < length view.now.products }
    requires uses { All (λ k. k < length steps.now) step.now.uses }
    ensures { IfOk result (λ answer. MatchBool answer
        (IsDerived (products_of view.now) (set_of leak.now) steps.now step.now)
        (¬ IsDerived (products_of view.now) (set_of leak.now) steps.now step.now)) }
{
    let mut operands = co_operands(alloc, steps, step.uses.as_slice())?;
    operands.push(step.operand())?;
    spans(alloc, view, operands.as_slice(), leak)
}

// Whether the derivation's steps and root show the leak.
fn derivation_holds(alloc: Global, view: &View, derivation: &Derivation) -> Result<bool, AllocError>
    requires columns { length derivation.now.leak ≡ length view.now.columns }
    requires products { All (λ step. step.product < length view.now.products) derivation.now.steps }
    requires order { IsInOrder derivation.now.steps derivation.now.root }
    ensures { IfOk result (λ answer. IsTrue answer ↔ IsSound (products_of view.now) (set_of derivation.now.leak) derivation.now.steps derivation.now.root) }
{
    let leak = &derivation.leak;
    if derivation.leak.is_zero() {
        return Ok(false);
    }
    let steps = derivation.steps.as_slice();
    for step in steps {
        if !step_spans(alloc, view, leak, steps, step)? {
            return Ok(false);
        }
    }
    let operands = co_operands(alloc, steps, derivation.root.as_slice())?;
    spans(alloc, view, operands.as_slice(), leak)
}

/// Whether an attack holds: by its probes where they are listed, and else by its derivation.
pub fn holds(alloc: Global, view: &View, attack: &Attack) -> Result<bool, AllocError>
    requires { InRange view.now attack.now }
    ensures answer { IfOk result (λ answer. IsTrue answer ↔ Holds view.now attack.now) }
    ensures leak { IfOk result (λ answer. OnTrue answer (IsLeak (products_of view.now) (set_of attack.now.derivation.leak))) }
{
    let derivation = &attack.derivation;
    match &attack.listing {
        Listing::Probes(list) => probes_hold(alloc, view, &derivation.leak, list.as_slice()),
        Listing::Large => derivation_holds(alloc, view, derivation),
    }
}
