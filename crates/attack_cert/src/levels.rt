// The steps of a leak, level by level.
ghost use Rattle.std.specs.Bool.{MatchBool, OnTrue};
ghost use Rattle.std.specs.Prelude.{slice_index_or, List, ◌≡◌, ◌≢◌, ◌<◌, ◌≤◌, ◌*◌, ◌^◌, ℕ, ◌++◌, ◌∷◌, [], length, map, All, IfOk, OnOk, IfSome, MatchOption};
ghost use Rattle.span_model.specs.Columns.{Columns, set_of, sets_of, empty, ◌△◌};
ghost use Rattle.span_model.specs.Span.{InSpan, SameSpan};
ghost use Rattle.span_model.specs.Closure.{operand as operand_sets, co_operands, IsClosed};
ghost use Rattle.gf2_span.specs.Basis.{row_sets};
ghost use Rattle.gf2_span.specs.Rows.{IsLast};
ghost use Rattle.linear_view.specs.Sides.{step_of};
ghost use Rattle.linear_view.specs.View.{products_of};
ghost use Rattle.attack_cert.specs.Levels.{steps_of};
ghost use Rattle.attack_cert.specs.Levelled.{operand_steps, noted_of, IsTold, AreTold, IsOnlyLead, AreLeads, IsSplit, ReachLeak};

use attack_model::{Operand, Side};
use gf2_span::{BitRow, Span};
use linear_view::View;
use std::alloc::{AllocError, Global};

/// A step that has a level, and how many steps have lower ones.
#[derive(Debug, Clone, Copy)]
pub(crate) struct Levelled {
    pub operand: Operand,
    pub lower: u32,
}

// Operands that span the leak with what is known, and others.
#[derive(Drop)]
struct Split {
    level: Vec<Operand>,
    rest: Vec<Operand>,
}

/// The steps up to the level at which the co-operands of all of them span the leak, in the order in which they are listed.
pub(crate) fn levelled_steps(
    alloc: Global,
    view: &View,
    leak: &BitRow,
) -> Result<Option<Vec<Levelled>>, AllocError>
    requires columns { length leak.now ≡ length view.now.columns }
    requires nonempty { set_of leak.now ≢ empty }
    ensures few { IfOk result (λ found. IfSome found (λ steps. length steps.items < 2 ^ 32)) }
    ensures found { IfOk result (λ found. MatchOption found (¬ IsClosed (products_of view.now) (set_of leak.now)) (λ steps. ReachLeak (products_of view.now) (set_of leak.now) steps.items)) }
{
    let leads = leads_of(alloc, view)?;
    let mut pending = all_operands(alloc, view)?;
    let mut steps = Vec::new(alloc);
    let mut span = Span::new(alloc, view.columns())?;
    let mut scratch = BitRow::new(alloc, view.columns())?;
    'levels: loop {
        if span.contains(leak, &mut scratch) {
            return Ok(Some(steps));
        }
        let Split { level, rest } = next_level(alloc, view, leak, &span, &leads, &pending)?;
        if level.is_empty() {
            return Ok(None);
        }
        list(&mut steps, &level)?;
        add_co_operands(alloc, view, &level, &mut span)?;
        pending = rest;
    }
}

// Every operand of every product, left before right.
fn all_operands(alloc: Global, view: &View) -> Result<Vec<Operand>, AllocError>
    ensures { IfOk result (λ operands. operand_steps operands.items ≡ steps_of (length view.now.products)) }
{
    let mut operands = Vec::with_capacity(alloc, 2 * view.products() as usize)?;
    for product in 0..view.products() {
        operands.push(Operand {
            product,
            side: Side::Left,
        })?;
        operands.push(Operand {
            product,
            side: Side::Right,
        })?;
    }
    Ok(operands)
}

// What is left of a row when it is reduced by a span.
fn remainder(alloc: Global, span: &Span, row: &BitRow) -> Result<BitRow, AllocError>
    requires { length row.now ≡ span.now.columns }
    ensures columns { IfOk result (λ left. length left ≡ length row.now) }
    ensures same { IfOk result (λ left. InSpan (row_sets span.now) (set_of row.now △ set_of left)) }
{
    let mut left = row.copy(alloc)?;
    span.reduce(&mut left);
    Ok(left)
}

// The greatest column of a row that is alone.
fn only_lead(rows: &[BitRow]) -> Option<u32>
    ensures { IfSome result (IsOnlyLead (sets_of rows.now)) }
{
    match rows {
        [row] => row.last(),
        _ => None,
    }
}

// The greatest column of the row of a product's operand on this side, where that is alone.
fn lead_on(view: &View, product: u32, side: Side) -> Option<u32>
    requires { product < length view.now.products }
    ensures { IfSome result (IsOnlyLead (operand_sets (products_of view.now) (step_of (record { product = product; side = side })))) }
{
    only_lead(view.operand(Operand { product, side }))
}

// Of each operand, left before right, the greatest column of its row, where that is alone.
fn leads_of(alloc: Global, view: &View) -> Result<Vec<Option<u32>>, AllocError>
    ensures { IfOk result (λ leads. AreLeads (products_of view.now) leads.items) }
{
    let mut leads = Vec::with_capacity(alloc, 2 * view.products() as usize)?;
    for product in 0..view.products() {
        leads.push(lead_on(view, product, Side::Left))?;
        leads.push(lead_on(view, product, Side::Right))?;
    }
    Ok(leads)
}

// What is noted of the operand.
fn noted<T: Copy>(notes: &[Option<T>], operand: Operand) -> Option<T>
    ensures { result ≡ noted_of notes.now operand }
{
    match notes.get(operand.place()) {
        Some(note) => *note,
        None => None,
    }
}

// Whether the greatest columns of rows and of what is left, `lead`, show that the rows do not span with the span what is left.
fn is_apart(span: &Span, own: Option<u32>, lead: u32) -> bool
    ensures { (rows : List (Columns ℕ)) (left : Columns ℕ) → IfSome own (IsOnlyLead rows) → IsLast left lead
        → ¬ InSpan (row_sets span.now) left → OnTrue result (¬ InSpan (rows ++ row_sets span.now) left) }
{
    match own {
        Some(c) if c < lead => !span.has_lead(lead),
        Some(c) if lead < c => !span.has_lead(c),
        _ => false,
    }
}

// Whether the sum of a row and what is left of the leak is in the span. What is left stays as it is.
fn holds_sum(span: &Span, row: &BitRow, left: &mut BitRow, scratch: &mut BitRow) -> bool
    requires row { length row.now ≡ span.now.columns }
    requires left { length left.old ≡ span.now.columns }
    requires scratch { length scratch.old ≡ span.now.columns }
    ensures answer { MatchBool result
        (InSpan (row_sets span.now) (set_of row.now △ set_of left.old)) (¬ InSpan (row_sets span.now) (set_of row.now △ set_of left.old)) }
    ensures columns { length left.new ≡ length left.old }
    ensures left { set_of left.new ≡ set_of left.old }
    ensures scratch { length scratch.new ≡ length scratch.old }
{
    left.add(row);
    let holds = span.contains(left, scratch);
    left.add(row);
    holds
}

// Whether rows span with the span what is left of the leak, which the span does not.
fn spans_left(
    alloc: Global,
    span: &Span,
    rows: &[BitRow],
    left: &mut BitRow,
    scratch: &mut BitRow,
) -> Result<bool, AllocError>
    requires rows { (k : ℕ) → k < length rows.now → length (slice_index_or rows.now k []) ≡ span.now.columns }
    requires left { length left.old ≡ span.now.columns }
    requires outside { ¬ InSpan (row_sets span.now) (set_of left.old) }
    requires scratch { length scratch.old ≡ span.now.columns }
    ensures answer { IfOk result (λ spans. MatchBool spans
        (InSpan (sets_of rows.now ++ row_sets span.now) (set_of left.old)) (¬ InSpan (sets_of rows.now ++ row_sets span.now) (set_of left.old))) }
    ensures columns { length left.new ≡ length left.old }
    ensures left { set_of left.new ≡ set_of left.old }
    ensures scratch { length scratch.new ≡ length scratch.old }
{
    if let [row] = rows {
        return Ok(holds_sum(span, row, left, scratch));
    }
    span.spans_with(alloc, rows, left)
}

// Whether an operand spans with the span what is left of the leak, which the span does not, and whose greatest column is
// `lead`. Mostly the greatest columns tell.
fn gives_left(
    alloc: Global,
    view: &View,
    span: &Span,
    leads: &[Option<u32>],
    operand: Operand,
    lead: u32,
    left: &mut BitRow,
    scratch: &mut BitRow,
) -> Result<bool, AllocError>
    requires product { operand.product < length view.now.products }
    requires span { span.now.columns ≡ length view.now.columns }
    requires leads { AreLeads (products_of view.now) leads.now }
    requires lead { IsLast (set_of left.old) lead }
    requires left { length left.old ≡ span.now.columns }
    requires outside { ¬ InSpan (row_sets span.now) (set_of left.old) }
    requires scratch { length scratch.old ≡ span.now.columns }
    ensures answer { IfOk result (IsTold (products_of view.now) (set_of left.old) (row_sets span.now) operand) }
    ensures columns { length left.new ≡ length left.old }
    ensures left { set_of left.new ≡ set_of left.old }
    ensures scratch { length scratch.new ≡ length scratch.old }
{
    if is_apart(span, noted(leads, operand), lead) {
        return Ok(false);
    }
    spans_left(alloc, span, view.operand(operand), left, scratch)
}

// The same, by what was told of an operand with the same rows where there is one.
fn gives_left_alike(
    alloc: Global,
    view: &View,
    span: &Span,
    leads: &[Option<u32>],
    told: &mut Vec<Option<bool>>,
    operand: Operand,
    lead: u32,
    left: &mut BitRow,
    scratch: &mut BitRow,
) -> Result<bool, AllocError>
    requires product { operand.product < length view.now.products }
    requires span { span.now.columns ≡ length view.now.columns }
    requires leads { AreLeads (products_of view.now) leads.now }
    requires told { AreTold (products_of view.now) (set_of left.old) (row_sets span.now) told.old.items }
    requires lead { IsLast (set_of left.old) lead }
    requires left { length left.old ≡ span.now.columns }
    requires outside { ¬ InSpan (row_sets span.now) (set_of left.old) }
    requires scratch { length scratch.old ≡ span.now.columns }
    ensures answer { IfOk result (IsTold (products_of view.now) (set_of left.old) (row_sets span.now) operand) }
    ensures told { OnOk result (AreTold (products_of view.now) (set_of left.old) (row_sets span.now) told.new.items) }
    ensures columns { length left.new ≡ length left.old }
    ensures left { set_of left.new ≡ set_of left.old }
    ensures scratch { length scratch.new ≡ length scratch.old }
{
    let like = view.alike(operand);
    if let Some(gives) = noted(told, like) {
        return Ok(gives);
    }
    let gives = gives_left(alloc, view, span, leads, like, lead, left, scratch)?;
    let place = like.place();
    if place < told.len() {
        told[place] = Some(gives);
    }
    Ok(gives)
}

// Which of the pending operands span the leak with the span of what is known, which does not.
fn next_level(
    alloc: Global,
    view: &View,
    leak: &BitRow,
    span: &Span,
    leads: &[Option<u32>],
    pending: &[Operand],
) -> Result<Split, AllocError>
    requires leads { AreLeads (products_of view.now) leads.now }
    requires leak { length leak.now ≡ length view.now.columns }
    requires span { span.now.columns ≡ length view.now.columns }
    requires outside { ¬ InSpan (row_sets span.now) (set_of leak.now) }
    requires products { All (λ operand. operand.product < length view.now.products) pending.now }
    ensures { IfOk result (λ split. IsSplit (products_of view.now) (set_of leak.now) (row_sets span.now) pending.now split.level.items split.rest.items) }
{
    // reduced once, so that no operand's test reduces the leak by the whole span again
    let mut left = remainder(alloc, span, leak)?;
    let mut scratch = left.copy(alloc)?;
    let mut level = Vec::new(alloc);
    let mut rest = Vec::with_capacity(alloc, pending.len())?;
    let mut told = vec![in alloc; None; 2 * view.products() as usize]?;
    let lead = left.last().unwrap();
    for operand in pending {
        let spans = gives_left_alike(
            alloc,
            view,
            span,
            leads,
            &mut told,
            *operand,
            lead,
            &mut left,
            &mut scratch,
        )?;
        if spans {
            level.push(*operand)?;
        } else {
            rest.push(*operand)?;
        }
    }
    Ok(Split { level, rest })
}

// Lists the steps of a level behind those of the lower ones.
fn list(steps: &mut Vec<Levelled>, level: &[Operand]) -> Result<(), AllocError>
    requires { length steps.old.items < 2 ^ 32 }
    ensures { OnOk result (steps.new.items ≡ steps.old.items ++ map (λ operand. record { operand = operand; lower = length steps.old.items }) level.now) }
{
    let lower = steps.len() as u32;
    for operand in level {
        steps.push(Levelled {
            operand: *operand,
            lower,
        })?;
    }
    Ok(())
}

// Grows the span by the co-operands of the steps of a level.
fn add_co_operands(
    alloc: Global,
    view: &View,
    level: &[Operand],
    span: &mut Span,
) -> Result<(), AllocError>
    requires products { All (λ operand. operand.product < length view.now.products) level.now }
    requires columns { span.old.columns ≡ length view.now.columns }
    ensures columns { span.new.columns ≡ span.old.columns }
    ensures span { OnOk result (SameSpan (row_sets span.new) (row_sets span.old ++ co_operands (products_of view.now) (operand_steps level.now))) }
{
    for operand in level {
        span.insert_all(alloc, view.co_operand(*operand))?;
    }
    Ok(())
}
