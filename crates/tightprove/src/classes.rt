ghost use Rattle.std.specs.Prelude.{◌≡◌, ◌≢◌, ◌<◌, ◌≤◌, ◌+◌, ◌^◌, ◌++◌, ℕ, [], ◌∷◌, List, length, true, false, Some, slice_index_or, IfOk, OnOk, OnErr, IfSome, All, Contains, suc};
ghost use Rattle.span_model.specs.Columns.{sets_of, set_of};
ghost use Rattle.span_model.specs.Span.{SameSpan};
ghost use Rattle.span_model.specs.Attack.{Product, product_at};
ghost use Rattle.gf2_span.specs.Basis.{row_sets};
ghost use Rattle.linear_view.specs.View.{products_of, product_of, Operands};
ghost use Rattle.tightprove.specs.Classes.{class_at, class_rows, IsPartner, AreClasses, AreByLead, AreClassesOf, AreStepsOf, AreNear, AreListed, IsGathered, noted_class, IsPlaced, ArePlaced, HasClassesOf, HasPartnersAnd, HasInLanes, LeadsApart};
ghost use Rattle.gf2_span.specs.Rows.{IsLast, HaveOwnLeads};
ghost use Rattle.std.specs.Bool.{OnTrue};

use crate::class::Class;
use gf2_span::{BitRow, Span, leads_are_kept};
use linear_view::{Operand, SharedRows, Side, View};
use std::alloc::{AllocError, Global};
use tor_edge::List;

/// The classes of the operands of a view's products.
#[derive(Drop)]
pub(crate) struct Classes {
    pub(crate) columns: u32,
    pub(crate) list: Vec<Class>,
    // by column: the classes of which a row has it as its greatest column
    pub(crate) by_lead: Vec<List<usize>>,
}

impl Classes {
    pub(crate) fn count(&self) -> u32
        requires { IsGathered self.now }
        ensures { result ≡ length self.now.list.items }
    {
        self.list.len() as u32
    }
}

// The span of rows.
pub(crate) fn span_of(alloc: Global, columns: u32, rows: &[BitRow]) -> Result<Span, AllocError>
    requires { (k : ℕ) → k < length rows.now → length (slice_index_or rows.now k []) ≡ columns }
    ensures columns { IfOk result (λ span. span.columns ≡ columns) }
    ensures span { IfOk result (λ span. SameSpan (row_sets span) (sets_of rows.now)) }
{
    let mut span = Span::new(alloc, columns)?;
    span.insert_all(alloc, rows)?;
    Ok(span)
}

// The greatest column of row k of the span.
pub(crate) fn lead_of(span: &Span, k: u32) -> Option<u32>
    ensures value { (c : ℕ) → k < length span.now.rows → IsLast (set_of (slice_index_or span.now.rows k [])) c → result ≡ Some c }
    ensures within { IfSome result (λ c. c < span.now.columns) }
{
    match span.row(k) {
        Some(row) => row.last(),
        None => None,
    }
}

/// The greatest columns of the span's rows.
pub(crate) fn leads_of(alloc: Global, span: &Span) -> Result<Vec<u32>, AllocError>
    ensures leads { IfOk result (λ leads. (k c : ℕ) → k < length span.now.rows → IsLast (set_of (slice_index_or span.now.rows k [])) c → Contains leads.items c) }
    ensures within { IfOk result (λ leads. All (λ c. c < span.now.columns) leads.items) }
    ensures own { HaveOwnLeads (row_sets span.now) }
    ensures wide { (k : ℕ) → k < length span.now.rows → length (slice_index_or span.now.rows k []) ≡ span.now.columns }
{
    let mut leads = Vec::new(alloc);
    for k in 0..span.rank() {
        match lead_of(span, k) {
            Some(lead) => leads.push(lead)?,
            None => {}
        }
    }
    Ok(leads)
}

// Whether the rows span the same sets as the span.
fn is_same(alloc: Global, span: &Span, rows: &[BitRow]) -> Result<bool, AllocError>
    requires { (k : ℕ) → k < length rows.now → length (slice_index_or rows.now k []) ≡ span.now.columns }
    ensures { IfOk result (λ same. OnTrue same (SameSpan (sets_of rows.now) (row_sets span.now))) }
{
    if rows.len() != span.rank() as usize {
        return Ok(false);
    }
    let Some(first) = rows.first() else {
        return Ok(true);
    };
    let mut scratch = first.copy(alloc)?;
    for row in rows {
        if !span.contains(row, &mut scratch) {
            return Ok(false);
        }
    }
    let other = span_of(alloc, first.columns(), rows)?;
    Ok(span.is_within(&other, &mut scratch))
}

/// The list at a column.
pub(crate) fn lane_at(table: &Vec<List<usize>>, c: u32) -> &[usize]
    ensures { result.now ≡ slice_index_or table.now.items c [] }
{
    match table.get(c as usize) {
        Some(lane) => lane.as_slice(),
        None => &[],
    }
}

// The class with the span, where there is one.
fn find(
    alloc: Global,
    list: &Vec<Class>,
    by_lead: &Vec<List<usize>>,
    span: &Span,
) -> Result<Option<usize>, AllocError>
    requires classes { AreClasses span.now.columns list.now.items }
    requires by_lead { AreByLead list.now.items by_lead.now.items }
    ensures { IfOk result (λ found. IfSome found (λ i. (i < length list.now.items) × SameSpan (class_rows list.now.items i) (row_sets span.now))) }
{
    let Some(lead) = lead_of(span, 0) else {
        return Ok(None);
    };
    for i in lane_at(by_lead, lead) {
        if is_same(alloc, span, list[*i].rows.as_slice())? {
            return Ok(Some(*i));
        }
    }
    Ok(None)
}

/// Adds a number to the lists at these columns.
pub(crate) fn add_to_lanes(
    leads: &[u32],
    n: usize,
    table: &mut Vec<List<usize>>,
) -> Result<(), AllocError>
    requires { All (λ c. c < length table.old.items) leads.now }
    ensures lanes { OnOk result (HasInLanes leads.now n table.old.items table.new.items) }
    ensures width { length table.new.items ≡ length table.old.items }
{
    for lead in leads {
        table[*lead as usize].push(n)?;
    }
    Ok(())
}

// Adds a class of the rows of the span, with no partners yet.
fn add_class(
    alloc: Global,
    list: &mut Vec<Class>,
    by_lead: &mut Vec<List<usize>>,
    span: Span,
) -> Result<(), AllocError>
    requires classes { AreClasses span.columns list.old.items }
    requires by_lead { AreByLead list.old.items by_lead.old.items }
    requires width { length by_lead.old.items ≡ span.columns }
    ensures list { OnOk result (list.new.items ≡ list.old.items ++ record { rows = span.rows; partners = [] } ∷ []) }
    ensures classes { OnOk result (AreClasses span.columns list.new.items) }
    ensures by_lead { OnOk result (AreByLead list.new.items by_lead.new.items) }
    ensures width { length by_lead.new.items ≡ span.columns }
{
    add_to_lanes(&leads_of(alloc, &span)?, list.len(), by_lead)?;
    let rows = SharedRows::new(alloc, List::from_vec(span.into_rows()))?;
    list.push(Class {
        rows,
        partners: List::new(alloc),
    })?;
    Ok(())
}

/// The number of the class with the span of the rows, which is added where there is none.
pub(crate) fn place_span(
    alloc: Global,
    columns: u32,
    list: &mut Vec<Class>,
    by_lead: &mut Vec<List<usize>>,
    rows: &[BitRow],
) -> Result<usize, AllocError>
    requires classes { AreClasses columns list.old.items }
    requires by_lead { AreByLead list.old.items by_lead.old.items }
    requires width { length by_lead.old.items ≡ columns }
    requires wide { (k : ℕ) → k < length rows.now → length (slice_index_or rows.now k []) ≡ columns }
    ensures number { IfOk result (λ i. (i < length list.new.items) × SameSpan (class_rows list.new.items i) (sets_of rows.now)) }
    ensures kept { OnOk result (HasClassesOf list.old.items list.new.items) }
    ensures few { OnOk result (length list.new.items ≤ length list.old.items + 1) }
    ensures classes { OnOk result (AreClasses columns list.new.items) }
    ensures by_lead { OnOk result (AreByLead list.new.items by_lead.new.items) }
    ensures width { length by_lead.new.items ≡ columns }
{
    let span = span_of(alloc, columns, rows)?;
    match find(alloc, list, by_lead, &span)? {
        Some(i) => Ok(i),
        None => {
            let i = list.len();
            add_class(alloc, list, by_lead, span)?;
            Ok(i)
        }
    }
}

// Whether the rows are found to be this row alone.
fn is_row(rows: &[BitRow], row: &BitRow) -> bool
    ensures { OnTrue result (rows.now ≡ row.now ∷ []) }
{
    match rows {
        [only] => only.equals(row),
        _ => false,
    }
}

// The class of this row alone, where one is found among these.
fn find_row(list: &Vec<Class>, among: &[usize], row: &BitRow) -> Option<usize>
    ensures { IfSome result
        (λ i. (i < length list.now.items) × SameSpan (class_rows list.now.items i) (set_of row.now ∷ [])) }
{
    for i in among {
        if let Some(class) = list.get(*i) {
            if is_row(class.rows.as_slice(), row) {
                return Some(*i);
            }
        }
    }
    None
}

// Adds a class of a row, which is alone among the rows, with no partners yet.
fn add_row(
    alloc: Global,
    list: &mut Vec<Class>,
    by_lead: &mut Vec<List<usize>>,
    rows: &SharedRows,
    row: &BitRow,
    lead: u32,
) -> Result<(), AllocError>
    requires alone { rows.now ≡ row.now ∷ [] }
    requires classes { AreClasses (length row.now) list.old.items }
    requires by_lead { AreByLead list.old.items by_lead.old.items }
    requires width { length by_lead.old.items ≡ length row.now }
    requires lead { (lead < length row.now) × IsLast (set_of row.now) lead }
    ensures list { OnOk result (list.new.items ≡ list.old.items ++ record { rows = row.now ∷ []; partners = [] } ∷ []) }
    ensures classes { OnOk result (AreClasses (length row.now) list.new.items) }
    ensures by_lead { OnOk result (AreByLead list.new.items by_lead.new.items) }
    ensures width { length by_lead.new.items ≡ length row.now }
{
    add_to_lanes(&[lead], list.len(), by_lead)?;
    let shared = rows.share()?;
    list.push(Class {
        rows: shared,
        partners: List::new(alloc),
    })?;
    Ok(())
}

// The lane of a row in a table, by the row's least and greatest columns.
fn lane_of_row(table: &Vec<List<usize>>, row: &BitRow, lead: u32) -> usize {
    let first = row.first().unwrap_or(lead);
    let key = first as usize * 40_503 + lead as usize;
    key.checked_rem(table.len()).unwrap_or(0)
}

// The classes of a lane.
fn noted(table: &Vec<List<usize>>, lane: usize) -> &[usize] {
    match table.get(lane) {
        Some(classes) => classes.as_slice(),
        None => &[],
    }
}

// Notes a class in a lane.
fn note(table: &mut Vec<List<usize>>, lane: usize, class: usize) -> Result<(), AllocError> {
    if let Some(classes) = table.get_mut(lane) {
        classes.push(class)?;
    }
    Ok(())
}

// The number of the class of the row alone, which is added where none is noted.
fn place_row(
    alloc: Global,
    list: &mut Vec<Class>,
    by_lead: &mut Vec<List<usize>>,
    by_row: &mut Vec<List<usize>>,
    rows: &SharedRows,
    row: &BitRow,
    lead: u32,
) -> Result<usize, AllocError>
    requires alone { rows.now ≡ row.now ∷ [] }
    requires classes { AreClasses (length row.now) list.old.items }
    requires by_lead { AreByLead list.old.items by_lead.old.items }
    requires width { length by_lead.old.items ≡ length row.now }
    requires lead { (lead < length row.now) × IsLast (set_of row.now) lead }
    ensures number { IfOk result
        (λ i. (i < length list.new.items) × SameSpan (class_rows list.new.items i) (set_of row.now ∷ [])) }
    ensures kept { OnOk result (HasClassesOf list.old.items list.new.items) }
    ensures few { OnOk result (length list.new.items ≤ length list.old.items + 1) }
    ensures classes { OnOk result (AreClasses (length row.now) list.new.items) }
    ensures by_lead { OnOk result (AreByLead list.new.items by_lead.new.items) }
    ensures width { length by_lead.new.items ≡ length row.now }
{
    let lane = lane_of_row(by_row, row, lead);
    if let Some(i) = find_row(list, noted(by_row, lane), row) {
        return Ok(i);
    }
    let i = list.len();
    add_row(alloc, list, by_lead, rows, row, lead)?;
    note(by_row, lane, i)?;
    Ok(i)
}

/// The number of a class with the span of the rows, which is added where there is none. The table `by_row` has the classes of single rows
/// that were placed, so that an equal row is found without going over those with the same greatest column.
pub(crate) fn place(
    alloc: Global,
    columns: u32,
    list: &mut Vec<Class>,
    by_lead: &mut Vec<List<usize>>,
    by_row: &mut Vec<List<usize>>,
    rows: &SharedRows,
) -> Result<usize, AllocError>
    requires classes { AreClasses columns list.old.items }
    requires by_lead { AreByLead list.old.items by_lead.old.items }
    requires width { length by_lead.old.items ≡ columns }
    requires wide { (k : ℕ) → k < length rows.now → length (slice_index_or rows.now k []) ≡ columns }
    ensures number { IfOk result (λ i. (i < length list.new.items) × SameSpan (class_rows list.new.items i) (sets_of rows.now)) }
    ensures kept { OnOk result (HasClassesOf list.old.items list.new.items) }
    ensures few { OnOk result (length list.new.items ≤ length list.old.items + 1) }
    ensures classes { OnOk result (AreClasses columns list.new.items) }
    ensures by_lead { OnOk result (AreByLead list.new.items by_lead.new.items) }
    ensures width { length by_lead.new.items ≡ columns }
{
    if let [row] = rows.as_slice() {
        if let Some(lead) = row.last() {
            return place_row(alloc, list, by_lead, by_row, rows, row, lead);
        }
    }
    place_span(alloc, columns, list, by_lead, rows.as_slice())
}

/// Notes that operands of class i stand beside operands of class j.
pub(crate) fn add_partner(list: &mut Vec<Class>, i: usize, j: usize) -> Result<(), AllocError>
    requires i { i < length list.old.items }
    ensures length { length list.new.items ≡ length list.old.items }
    ensures rows { (k : ℕ) → (class_at list.new.items k).rows ≡ (class_at list.old.items k).rows }
    ensures partners { OnOk result (HasPartnersAnd list.old.items i j list.new.items) }
{
    list[i].partners.push(j)?;
    Ok(())
}

// The number of the class that was noted of an operand.
fn placed_at(placed: &[Option<usize>], operand: Operand) -> Option<usize>
    ensures { result ≡ noted_class placed.now operand }
{
    match placed.get(operand.place()) {
        Some(class) => *class,
        None => None,
    }
}

// The number of the class of an operand: that of an operand with the same rows, where one was placed.
fn place_operand(
    alloc: Global,
    view: &View,
    operand: Operand,
    list: &mut Vec<Class>,
    by_lead: &mut Vec<List<usize>>,
    by_row: &mut Vec<List<usize>>,
    placed: &mut Vec<Option<usize>>,
) -> Result<usize, AllocError>
    requires product { operand.product < length view.now.products }
    requires classes { AreClasses (length view.now.columns) list.old.items }
    requires by_lead { AreByLead list.old.items by_lead.old.items }
    requires width { length by_lead.old.items ≡ length view.now.columns }
    requires placed { ArePlaced (products_of view.now) list.old.items placed.old.items }
    ensures number { IfOk result (λ i. IsPlaced (products_of view.now) list.new.items operand i) }
    ensures kept { OnOk result (HasClassesOf list.old.items list.new.items) }
    ensures few { OnOk result (length list.new.items ≤ length list.old.items + 1) }
    ensures classes { OnOk result (AreClasses (length view.now.columns) list.new.items) }
    ensures by_lead { OnOk result (AreByLead list.new.items by_lead.new.items) }
    ensures width { length by_lead.new.items ≡ length view.now.columns }
    ensures placed { OnOk result (ArePlaced (products_of view.now) list.new.items placed.new.items) }
{
    let like = view.alike(operand);
    if let Some(i) = placed_at(placed, like) {
        return Ok(i);
    }
    let i = place(
        alloc,
        view.columns(),
        list,
        by_lead,
        by_row,
        view.shared_operand(like),
    )?;
    let at = like.place();
    if at < placed.len() {
        placed[at] = Some(i);
    }
    Ok(i)
}

// Gathers the operands of product k of a view.
fn add_numbered(
    alloc: Global,
    view: &View,
    k: u32,
    list: &mut Vec<Class>,
    by_lead: &mut Vec<List<usize>>,
    by_row: &mut Vec<List<usize>>,
    placed: &mut Vec<Option<usize>>,
) -> Result<(), AllocError>
    requires k { k < length view.now.products }
    requires classes { AreClasses (length view.now.columns) list.old.items }
    requires by_lead { AreByLead list.old.items by_lead.old.items }
    requires width { length by_lead.old.items ≡ length view.now.columns }
    requires placed { ArePlaced (products_of view.now) list.old.items placed.old.items }
    ensures few { OnOk result (length list.new.items ≤ length list.old.items + 2) }
    ensures steps { OnOk result (AreStepsOf k (products_of view.now) list.old.items → AreStepsOf (suc k) (products_of view.now) list.new.items) }
    ensures classes { OnOk result (AreClasses (length view.now.columns) list.new.items) }
    ensures by_lead { OnOk result (AreByLead list.new.items by_lead.new.items) }
    ensures width { length by_lead.new.items ≡ length view.now.columns }
    ensures placed { OnOk result (ArePlaced (products_of view.now) list.new.items placed.new.items) }
{
    let left = Operand {
        product: k,
        side: Side::Left,
    };
    let i = place_operand(alloc, view, left, list, by_lead, by_row, placed)?;
    let j = place_operand(alloc, view, left.other(), list, by_lead, by_row, placed)?;
    add_partner(list, i, j)?;
    add_partner(list, j, i)?;
    Ok(())
}

// An empty list for each column.
pub(crate) fn empty_lanes(alloc: Global, columns: u32) -> Result<Vec<List<usize>>, AllocError>
    ensures width { IfOk result (λ lanes. length lanes.items ≡ columns) }
    ensures empty { IfOk result (λ lanes. (c : ℕ) → slice_index_or lanes.items c [] ≡ []) }
{
    let mut lanes = Vec::with_capacity(alloc, columns as usize)?;
    for _ in 0..columns {
        lanes.push(List::new(alloc))?;
    }
    Ok(lanes)
}

/// Gathers the operands of a view's products.
pub(crate) fn classes_of(alloc: Global, view: &View) -> Result<Classes, AllocError>
    ensures columns { IfOk result (λ classes. classes.columns ≡ length view.now.columns) }
    ensures gathered { IfOk result (λ classes. IsGathered classes) }
    ensures products { IfOk result (λ classes. AreClassesOf (products_of view.now) classes.list.items) }
{
    let columns = view.columns();
    let mut list = Vec::new(alloc);
    let mut by_lead = empty_lanes(alloc, columns)?;
    let mut by_row = empty_lanes(alloc, view.products())?;
    let mut placed = vec![in alloc; None; 2 * view.products() as usize]?;
    for k in 0..view.products() {
        add_numbered(
            alloc,
            view,
            k,
            &mut list,
            &mut by_lead,
            &mut by_row,
            &mut placed,
        )?;
    }
    Ok(Classes {
        columns,
        list,
        by_lead,
    })
}

// Lists the classes of a lane that are not yet listed.
fn list_lane(lane: &[usize], listed: &mut BitRow, near: &mut Vec<usize>) -> Result<(), AllocError>
    requires few { length listed.old < 2 ^ 32 }
    requires numbers { (i : ℕ) → Contains lane.now i → i < length listed.old }
    requires listed { AreListed (length listed.old) listed.old near.old.items }
    ensures listed { OnOk result (AreListed (length listed.old) listed.new near.new.items) }
    ensures kept { OnOk result ((i : ℕ) → slice_index_or listed.old i false ≡ true → slice_index_or listed.new i false ≡ true) }
    ensures lane { OnOk result ((i : ℕ) → Contains lane.now i → slice_index_or listed.new i false ≡ true) }
{
    for i in lane {
        let number = *i as u32;
        if !listed.has(number) {
            listed.flip(number);
            near.push(*i)?;
        }
    }
    Ok(())
}

// The lesser of a column and a lead, if there is one.
fn lower(low: u32, lead: Option<u32>) -> u32
    ensures less { result ≤ low }
    ensures lead { IfSome lead (λ c. result ≤ c) }
{
    match lead {
        Some(c) => { if c < low { c } else { low } }
        None => low,
    }
}

// The least of the greatest columns of the span's rows, or `most`.
fn least_lead(span: &Span, most: u32) -> u32
    ensures { (k c : ℕ) → k < length span.now.rows → IsLast (set_of (slice_index_or span.now.rows k [])) c → result ≤ c }
{
    let mut low = most;
    for k in 0..span.rank() {
        low = lower(low, lead_of(span, k));
    }
    low
}

// The list at a column, or none where the column is below `low`.
fn lane_from(table: &Vec<List<usize>>, c: u32, low: u32) -> &[usize]
    ensures some { low ≤ c → result.now ≡ slice_index_or table.now.items c [] }
    ensures only { (i : ℕ) → Contains result.now i → Contains (slice_index_or table.now.items c []) i }
{
    if c < low {
        return &[];
    }
    lane_at(table, c)
}

// Lists the classes that share a greatest column with the span, from the column `low` on.
fn list_span(
    alloc: Global,
    span: &Span,
    low: u32,
    by_lead: &Vec<List<usize>>,
    listed: &mut BitRow,
    near: &mut Vec<usize>,
) -> Result<(), AllocError>
    requires few { length listed.old < 2 ^ 32 }
    requires numbers { (c i : ℕ) → Contains (slice_index_or by_lead.now.items c []) i → i < length listed.old }
    requires listed { AreListed (length listed.old) listed.old near.old.items }
    ensures own { HaveOwnLeads (row_sets span.now) }
    ensures listed { OnOk result (AreListed (length listed.old) listed.new near.new.items) }
    ensures kept { OnOk result ((i : ℕ) → slice_index_or listed.old i false ≡ true → slice_index_or listed.new i false ≡ true) }
    ensures lanes { OnOk result ((k c i : ℕ) → k < length span.now.rows → IsLast (set_of (slice_index_or span.now.rows k [])) c → low ≤ c
        → Contains (slice_index_or by_lead.now.items c []) i → slice_index_or listed.new i false ≡ true) }
{
    for lead in &leads_of(alloc, span)? {
        list_lane(lane_from(by_lead, *lead, low), listed, near)?;
    }
    Ok(())
}

/// The classes that share a greatest column with one of the spans, from the least one of `rest` on: any other class has only members of the
/// span in common with both together.
pub(crate) fn touching(
    alloc: Global,
    classes: &Classes,
    rest: &Span,
    span: &Span,
) -> Result<Vec<usize>, AllocError>
    requires classes { IsGathered classes.now }
    requires apart { LeadsApart (row_sets rest.now) (row_sets span.now) }
    ensures { IfOk result (λ near. AreNear classes.now.list.items (row_sets rest.now ++ row_sets span.now) (row_sets span.now) near.items) }
{
    let mut listed = BitRow::new(alloc, classes.count())?;
    let mut near = Vec::new(alloc);
    let low = least_lead(rest, classes.columns);
    list_span(alloc, rest, low, &classes.by_lead, &mut listed, &mut near)?;
    list_span(alloc, span, low, &classes.by_lead, &mut listed, &mut near)?;
    leads_are_kept();
    Ok(near)
}
