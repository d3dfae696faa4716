ghost use Rattle.std.specs.Prelude.{◌≡◌, ◌≢◌, ℕ, Bool, ◌+◌, ◌++◌, ◌<◌, ◌≤◌, ◌↔◌, List, [], ◌∷◌, length, true, false, slice_get, slice_index_or, IsTrue, IfOk, OnOk, OnErr, MatchBool, MatchOption, MatchResult, IfSome};
ghost use Rattle.std.specs.Prelude.{All, take};
ghost use Rattle.std.specs.Bool.{OnFalse};
ghost use Rattle.std.specs.Option.{option_copied};
ghost use Rattle.span_model.specs.Columns.{Columns, set_of, sets_of, empty, ◌△◌};
ghost use Rattle.span_model.specs.Span.{difference, InSpan, Spans, SameSpan, IsIndependent, IsSum, IsMeet};
ghost use Rattle.gf2_span.specs.Rows.{IsLast, HaveOwnLeads, HoldsNoLead, LeadsNoMember, LeadsAreKept};
ghost use Rattle.gf2_span.specs.Basis.{Basis, row_sets};
ghost use Rattle.gf2_span.specs.Echelon.{lead_at, AreAscending, IsSplitAt, IsEchelon, LeadsNone, IsTraced};

use crate::row::{BitRow, copy_rows};
use std::alloc::{AllocError, Global};
use std::marker::Model;

// The greatest column of a row, and the row's number.
#[derive(Debug, Clone, Copy)]
struct Lead {
    column: u32,
    row: u32,
}

/// The symmetric differences of some rows of one column count.
#[derive(Debug, Drop)]
pub struct Span {
    columns: u32,
    rows: Vec<BitRow>,
    // in ascending order of their columns
    leads: Vec<Lead>,
}

impl Model for Span {
    ghost use Rattle.gf2_span.specs.Basis.{Basis};
    ghost use Rattle.gf2_span.specs.Echelon.{IsEchelon};

    ghost Value = { Basis };

    ghost view = { λ span. record { columns = span.columns; rows = span.rows.items } };

    ghost invariant = { λ span. IsEchelon span.columns span.rows.items span.leads.items };
}

// Two places between which a column's lead is to be sought, where the leads from `most` on are past
// the column. The columns sought descend, so it looks near `most` first.
fn bracket(leads: &Vec<Lead>, most: usize, c: u32) -> (usize, usize)
    requires ascending { AreAscending leads.now.items }
    requires within { most ≤ length leads.now.items }
    requires past { (k : ℕ) → most ≤ k → k < length leads.now.items → c < (lead_at leads.now.items k).column }
    ensures within { (result.0 ≤ result.1) × (result.1 ≤ most) }
    ensures before { (k : ℕ) → k < result.0 → (lead_at leads.now.items k).column < c }
    ensures past { (k : ℕ) → result.1 ≤ k → k < length leads.now.items → c < (lead_at leads.now.items k).column }
{
    let mut high = most;
    let mut step = 1;
    while step <= high {
        let low = high - step;
        if leads[low].column <= c {
            return (low, high);
        }
        high = low;
        step *= 2;
    }
    (0, high)
}

// The place of the lead at a column, or how many leads are before the column, where the leads from
// `most` on are past it.
fn find(leads: &Vec<Lead>, most: usize, c: u32) -> Result<usize, usize>
    requires ascending { AreAscending leads.now.items }
    requires within { most ≤ length leads.now.items }
    requires past { (k : ℕ) → most ≤ k → k < length leads.now.items → c < (lead_at leads.now.items k).column }
    ensures { MatchResult result (λ k. (k < most) × ((lead_at leads.now.items k).column ≡ c)) (λ n. (n ≤ most) × ((k : ℕ) → k < n → (lead_at leads.now.items k).column < c) × ((k : ℕ) → n ≤ k → k < length leads.now.items → c < (lead_at leads.now.items k).column)) }
{
    let (start, end) = bracket(leads, most, c);
    let mut low = start;
    let mut high = end;
    while low < high {
        let middle = low + (high - low) / 2;
        let column = leads[middle].column;
        if column == c {
            return Ok(middle);
        }
        if column < c {
            low = middle + 1;
        } else {
            high = middle;
        }
    }
    Err(low)
}

// Of the first `most` leads, which are those below `end`, the place of the last one whose column is
// in the row.
fn last_led(leads: &Vec<Lead>, row: &BitRow, most: usize, end: u32) -> Option<usize>
    requires ascending { AreAscending leads.now.items }
    requires split { IsSplitAt leads.now.items most end }
    requires within { end ≤ length row.now }
    ensures { MatchOption result ((k : ℕ) → k < most → set_of row.now (lead_at leads.now.items k).column ≡ false) (λ n. (n < most) × (set_of row.now (lead_at leads.now.items n).column ≡ true) × ((k : ℕ) → n < k → k < most → set_of row.now (lead_at leads.now.items k).column ≡ false)) }
{
    let mut left = most;
    let mut high = end;
    while left > 0 {
        let Some(c) = row.last_before(high) else {
            return None;
        };
        match find(leads, left, c) {
            Ok(k) => return Some(k),
            Err(n) => {
                left = n;
                high = c;
            }
        }
    }
    None
}

// Adds rows until the row is empty or its greatest column leads no row. The answer is then this
// column.
fn reduce_lead(rows: &Vec<BitRow>, leads: &Vec<Lead>, row: &mut BitRow) -> Option<u32>
    requires { IsEchelon (length row.old) rows.now.items leads.now.items }
    ensures columns { length row.new ≡ length row.old }
    ensures same { InSpan (sets_of rows.now.items) (set_of row.old △ set_of row.new) }
    ensures rest { MatchOption result (set_of row.new ≡ empty) (λ c. IsLast (set_of row.new) c × LeadsNone (sets_of rows.now.items) c) }
    ensures kept { HoldsNoLead (sets_of rows.now.items) (set_of row.old) → row.new ≡ row.old }
{
    let mut most = leads.len();
    let mut end = row.columns();
    while let Some(c) = row.last_before(end) {
        match find(leads, most, c) {
            Ok(k) => {
                row.add(&rows[leads[k].row as usize]);
                most = k;
                end = c;
            }
            Err(_) => return Some(c),
        }
    }
    None
}

// Adds rows until none of their greatest columns is left in the row.
fn reduce(rows: &Vec<BitRow>, leads: &Vec<Lead>, row: &mut BitRow)
    requires { IsEchelon (length row.old) rows.now.items leads.now.items }
    ensures columns { length row.new ≡ length row.old }
    ensures same { InSpan (sets_of rows.now.items) (set_of row.old △ set_of row.new) }
    ensures clear { HoldsNoLead (sets_of rows.now.items) (set_of row.new) }
{
    let mut most = leads.len();
    let mut end = row.columns();
    while let Some(k) = last_led(leads, row, most, end) {
        let lead = leads[k];
        row.add(&rows[lead.row as usize]);
        most = k;
        end = lead.column;
    }
}

// `reduce`, where what is added to the row is added to its trace.
fn reduce_traced(
    rows: &Vec<BitRow>,
    leads: &Vec<Lead>,
    traces: &[BitRow],
    row: &mut BitRow,
    trace: &mut BitRow,
)
    requires echelon { IsEchelon (length row.old) rows.now.items leads.now.items }
    requires as_many { length traces.now ≡ length rows.now.items }
    requires wide { (k : ℕ) → k < length traces.now → length (slice_index_or traces.now k []) ≡ length trace.old }
    ensures columns { length row.new ≡ length row.old }
    ensures trace_columns { length trace.new ≡ length trace.old }
    ensures same { IsTraced rows.now.items traces.now row.old trace.old row.new trace.new }
    ensures clear { HoldsNoLead (sets_of rows.now.items) (set_of row.new) }
{
    let mut most = leads.len();
    let mut end = row.columns();
    while let Some(k) = last_led(leads, row, most, end) {
        let lead = leads[k];
        let place = lead.row as usize;
        row.add(&rows[place]);
        trace.add(&traces[place]);
        most = k;
        end = lead.column;
    }
}

// Whether the column of one of the leads is the greatest one of a member of the span.
fn any_leads(leads: &Vec<Lead>, span: &Span) -> bool
    ensures { OnFalse result ((k : ℕ) → k < length leads.now.items → LeadsNoMember (row_sets span.now) (lead_at leads.now.items k).column) }
{
    for k in 0..leads.len() {
        if span.has_lead(leads[k].column) {
            return true;
        }
    }
    false
}

impl Span {
    /// The span of no rows: the empty set alone.
    pub fn new(alloc: Global, columns: u32) -> Result<Span, AllocError>
        ensures { IfOk result (λ span. span ≡ record { columns = columns; rows = [] }) }
    {
        Ok(Span {
            columns,
            rows: Vec::new(alloc),
            leads: Vec::new(alloc),
        })
    }

    pub fn copy(&self, alloc: Global) -> Result<Span, AllocError>
        ensures { IfOk result (λ span. span ≡ self.now) }
    {
        let rows = copy_rows(alloc, self.rows.as_slice())?;
        let leads = Vec::from_slice(alloc, self.leads.as_slice())?;
        Ok(Span {
            columns: self.columns,
            rows,
            leads,
        })
    }

    /// Grows the span by a row. The answer is whether the row was not in the span before.
    pub fn insert(&mut self, row: BitRow) -> Result<bool, AllocError>
        requires { length row ≡ self.old.columns }
        ensures columns { self.new.columns ≡ self.old.columns }
        ensures answer { IfOk result (λ fresh. MatchBool fresh (¬ InSpan (row_sets self.old) (set_of row)) (InSpan (row_sets self.old) (set_of row))) }
        ensures span { OnOk result (SameSpan (row_sets self.new) (set_of row ∷ row_sets self.old)) }
        ensures rows { IfOk result (λ fresh. IsTrue fresh → (rest : List Bool) × (self.new.rows ≡ self.old.rows ++ rest ∷ []) × InSpan (row_sets self.old) (set_of row △ set_of rest) × (HoldsNoLead (row_sets self.old) (set_of row) → rest ≡ row)) }
        ensures rank { IfOk result (λ fresh. MatchBool fresh (length self.new.rows ≡ length self.old.rows + 1) (self.new ≡ self.old)) }
        ensures err { OnErr result (self.new ≡ self.old) }
    {
        let mut row = row;
        match reduce_lead(&self.rows, &self.leads, &mut row) {
            Some(c) => {
                self.keep(row, c)?;
                Ok(true)
            }
            None => Ok(false),
        }
    }

    /// Grows the span by copies of rows. After want of memory it was grown by the first of them.
    pub fn insert_all(&mut self, alloc: Global, rows: &[BitRow]) -> Result<(), AllocError>
        requires { All (λ row. length row ≡ self.old.columns) rows.now }
        ensures columns { self.new.columns ≡ self.old.columns }
        ensures span { OnOk result (SameSpan (row_sets self.new) (row_sets self.old ++ sets_of rows.now)) }
        ensures err { OnErr result ((n : ℕ)
            × SameSpan (row_sets self.new) (row_sets self.old ++ sets_of (take n rows.now))) }
    {
        for row in rows {
            let _fresh = self.insert(row.copy(alloc)?)?;
        }
        Ok(())
    }

    /// Whether a row is in the span.
    pub fn contains(&self, row: &BitRow, scratch: &mut BitRow) -> bool
        requires same { length row.now ≡ self.now.columns }
        requires scratch { length scratch.old ≡ self.now.columns }
        ensures answer { MatchBool result (InSpan (row_sets self.now) (set_of row.now)) (¬ InSpan (row_sets self.now) (set_of row.now)) }
        ensures scratch { length scratch.new ≡ length scratch.old }
    {
        scratch.overwrite(row);
        reduce_lead(&self.rows, &self.leads, scratch).is_none()
    }

    /// Whether each member of the span is one of the other.
    pub fn is_within(&self, other: &Span, scratch: &mut BitRow) -> bool
        requires same { other.now.columns ≡ self.now.columns }
        requires scratch { length scratch.old ≡ self.now.columns }
        ensures answer { MatchBool result (Spans (row_sets other.now) (row_sets self.now)) ((k : ℕ) × (k < length self.now.rows) × ¬ InSpan (row_sets other.now) (set_of (slice_index_or self.now.rows k []))) }
        ensures scratch { length scratch.new ≡ length scratch.old }
    {
        for row in &self.rows {
            if !other.contains(row, scratch) {
                return false;
            }
        }
        true
    }

    /// How many rows it takes to span this span.
    pub fn rank(&self) -> u32
        ensures value { result ≡ length self.now.rows }
        ensures independent { IsIndependent (row_sets self.now) }
        ensures bound { result ≤ self.now.columns }
        ensures wide { (k : ℕ) → k < result → length (slice_index_or self.now.rows k []) ≡ self.now.columns }
        ensures leads { HaveOwnLeads (row_sets self.now) }
    {
        self.rows.len() as u32
    }

    /// A row of number `k` below the rank. All of them span this span.
    pub fn row(&self, k: u32) -> Option<&BitRow>
        ensures value { option_copied result ≡ slice_get self.now.rows k }
        ensures columns { IfSome result (λ row. length row.now ≡ self.now.columns) }
    {
        self.rows.get(k as usize)
    }

    /// The rows that the span keeps, of which nothing is copied.
    pub fn into_rows(self) -> Vec<BitRow>
        ensures { result.items ≡ self.rows }
    {
        let Span {
            columns: _columns,
            rows,
            leads: _leads,
        } = self;
        rows
    }

    /// A member that is not empty.
    pub fn first_nonzero(&self) -> Option<&BitRow>
        ensures { MatchOption result (self.now.rows ≡ []) (λ row. (length row.now ≡ self.now.columns) × InSpan (row_sets self.now) (set_of row.now) × ((c : ℕ) × (set_of row.now c ≡ true))) }
    {
        self.rows.first()
    }

    /// The span whose members are the symmetric differences of a member of each.
    pub fn sum(alloc: Global, a: &Span, b: &Span) -> Result<Span, AllocError>
        requires { a.now.columns ≡ b.now.columns }
        ensures columns { IfOk result (λ sum. sum.columns ≡ a.now.columns) }
        ensures members { IfOk result (λ sum. IsSum (row_sets sum) (row_sets a.now) (row_sets b.now)) }
    {
        let mut sum = a.copy(alloc)?;
        sum.insert_all(alloc, b.rows.as_slice())?;
        Ok(sum)
    }

    /// The span whose members are the members of both.
    pub fn meet(alloc: Global, a: &Span, b: &Span) -> Result<Span, AllocError>
        requires { a.now.columns ≡ b.now.columns }
        ensures columns { IfOk result (λ meet. meet.columns ≡ a.now.columns) }
        ensures members { IfOk result (λ meet. IsMeet (row_sets meet) (row_sets a.now) (row_sets b.now)) }
    {
        if !any_leads(&a.leads, b) {
            return Span::new(alloc, a.columns);
        }
        Span::meet_sum(alloc, a, &[], b)
    }

    /// Adds members of the span to a row until none of the greatest columns of the span's rows is left in it.
    pub fn reduce(&self, row: &mut BitRow)
        requires { length row.old ≡ self.now.columns }
        ensures columns { length row.new ≡ length row.old }
        ensures same { InSpan (row_sets self.now) (set_of row.old △ set_of row.new) }
        ensures clear { HoldsNoLead (row_sets self.now) (set_of row.new) }
        ensures zero { (set_of row.new ≡ empty) ↔ InSpan (row_sets self.now) (set_of row.old) }
    {
        reduce(&self.rows, &self.leads, row);
    }

    /// Adds members of the span to a row until the row is empty or no member has the row's greatest column as its own greatest one. The answer is
    /// this column. It takes less time than `reduce`.
    pub fn reduce_last(&self, row: &mut BitRow) -> Option<u32>
        requires { length row.old ≡ self.now.columns }
        ensures columns { length row.new ≡ length row.old }
        ensures same { InSpan (row_sets self.now) (set_of row.old △ set_of row.new) }
        ensures last { MatchOption result (set_of row.new ≡ empty) (λ c. IsLast (set_of row.new) c × LeadsNoMember (row_sets self.now) c) }
    {
        reduce_lead(&self.rows, &self.leads, row)
    }

    /// Whether a member has the column as its greatest one.
    pub fn has_lead(&self, c: u32) -> bool
        ensures { MatchBool result ((v : Columns ℕ) × InSpan (row_sets self.now) v × IsLast v c) (LeadsNoMember (row_sets self.now) c) }
    {
        match find(&self.leads, self.leads.len(), c) {
            Ok(_) => true,
            Err(_) => false,
        }
    }

    /// Reduces a row, where each row of the span has a trace: with each row that is added to the row, its trace is added to the row's trace.
    pub fn reduce_traced(&self, row: &mut BitRow, traces: &[BitRow], trace: &mut BitRow)
        requires columns { length row.old ≡ self.now.columns }
        requires as_many { length traces.now ≡ length self.now.rows }
        requires trace_columns { (k : ℕ) → k < length traces.now
            → length (slice_index_or traces.now k []) ≡ length trace.old }
        ensures columns { length row.new ≡ length row.old }
        ensures trace_columns { length trace.new ≡ length trace.old }
        ensures same { (picks : List Bool) × (set_of row.old △ set_of row.new ≡ difference picks (row_sets self.now))
            × (set_of trace.old △ set_of trace.new ≡ difference picks (sets_of traces.now)) }
        ensures clear { HoldsNoLead (row_sets self.now) (set_of row.new) }
        ensures zero { (set_of row.new ≡ empty) ↔ InSpan (row_sets self.now) (set_of row.old) }
    {
        reduce_traced(&self.rows, &self.leads, traces, row, trace);
    }

    /// The span whose members are those of `a` that are the symmetric difference of a member of the span of `rows` and one of `base`.
    /// It takes memory by the rows of `a` and `rows` alone.
    pub fn meet_sum(
        alloc: Global,
        a: &Span,
        rows: &[BitRow],
        base: &Span,
    ) -> Result<Span, AllocError>
        requires columns { a.now.columns ≡ base.now.columns }
        requires wide { (k : ℕ) → k < length rows.now → length (slice_index_or rows.now k []) ≡ base.now.columns }
        ensures columns { IfOk result (λ meet. meet.columns ≡ a.now.columns) }
        ensures members { IfOk result (λ meet. IsMeet (row_sets meet) (row_sets a.now) (sets_of rows.now ++ row_sets base.now)) }
    {
        if a.rows.is_empty() {
            return Span::new(alloc, a.columns);
        }
        let more = base.reduced_span(alloc, rows)?;
        Span::meet_over(alloc, a, &more, base)
    }

    /// Whether a row is the symmetric difference of a member of the span of `rows` and one of this span.
    pub fn spans_with(
        &self,
        alloc: Global,
        rows: &[BitRow],
        row: &BitRow,
    ) -> Result<bool, AllocError>
        requires columns { length row.now ≡ self.now.columns }
        requires wide { (k : ℕ) → k < length rows.now → length (slice_index_or rows.now k []) ≡ self.now.columns }
        ensures { IfOk result (λ spans. MatchBool spans (InSpan (sets_of rows.now ++ row_sets self.now) (set_of row.now)) (¬ InSpan (sets_of rows.now ++ row_sets self.now) (set_of row.now))) }
    {
        let mut rest = row.copy(alloc)?;
        self.reduce(&mut rest);
        if rest.is_zero() {
            return Ok(true);
        }
        let more = self.reduced_span(alloc, rows)?;
        more.reduce(&mut rest);
        Ok(rest.is_zero())
    }

    // The members of `a` that are sums of one of `more` and one of `base`, where no member of `more`
    // has any of the greatest columns of the rows of `base`.
    fn meet_over(alloc: Global, a: &Span, more: &Span, base: &Span) -> Result<Span, AllocError>
        requires columns { a.now.columns ≡ base.now.columns }
        requires more_columns { more.now.columns ≡ base.now.columns }
        requires clear { (v : Columns ℕ) → InSpan (row_sets more.now) v → HoldsNoLead (row_sets base.now) v }
        ensures columns { IfOk result (λ meet. meet.columns ≡ a.now.columns) }
        ensures members { IfOk result (λ meet. IsMeet (row_sets meet) (row_sets a.now) (row_sets more.now ++ row_sets base.now)) }
    {
        let mut meet = Span::new(alloc, base.columns)?;
        // what is left of rows of `a`, as far as it is independent
        let mut rests = Span::new(alloc, more.columns)?;
        let mut traces = Vec::new(alloc);
        for row in &a.rows {
            let mut rest = row.copy(alloc)?;
            let mut trace = row.copy(alloc)?;
            base.reduce(&mut rest);
            more.reduce(&mut rest);
            rests.reduce_traced(&mut rest, traces.as_slice(), &mut trace);
            match rest.last() {
                Some(c) => {
                    rests.keep(rest, c)?;
                    traces.push(trace)?;
                }
                None => {
                    let _fresh = meet.insert(trace)?;
                }
            }
        }
        Ok(meet)
    }

    // The span of some rows, each reduced by this span.
    fn reduced_span(&self, alloc: Global, rows: &[BitRow]) -> Result<Span, AllocError>
        requires { (k : ℕ) → k < length rows.now → length (slice_index_or rows.now k []) ≡ self.now.columns }
        ensures columns { IfOk result (λ span. span.columns ≡ self.now.columns) }
        ensures own { OnOk result (HaveOwnLeads (row_sets self.now)) }
        ensures clear { IfOk result (λ span. (v : Columns ℕ) → InSpan (row_sets span) v → HoldsNoLead (row_sets self.now) v) }
        ensures same { IfOk result (λ span. SameSpan (row_sets span ++ row_sets self.now) (sets_of rows.now ++ row_sets self.now)) }
    {
        let mut span = Span::new(alloc, self.columns)?;
        for row in rows {
            let mut rest = row.copy(alloc)?;
            self.reduce(&mut rest);
            let _fresh = span.insert(rest)?;
        }
        Ok(span)
    }

    // Keeps one more row, whose greatest column leads no row.
    fn keep(&mut self, row: BitRow, lead: u32) -> Result<(), AllocError>
        requires wide { length row ≡ self.old.columns }
        requires led { IsLast (set_of row) lead }
        requires free { LeadsNone (row_sets self.old) lead }
        ensures columns { self.new.columns ≡ self.old.columns }
        ensures ok { OnOk result (self.new.rows ≡ self.old.rows ++ row ∷ []) }
        ensures own { OnOk result (HaveOwnLeads (row_sets self.new)) }
        ensures err { OnErr result (self.new ≡ self.old) }
    {
        let at = match find(&self.leads, self.leads.len(), lead) {
            Ok(k) => k,
            Err(n) => n,
        };
        let number = self.rows.len() as u32;
        let mut row = row;
        row.cut_past(lead);
        self.rows.push(row)?;
        match self.leads.insert(
            at,
            Lead {
                column: lead,
                row: number,
            },
        ) {
            Ok(()) => Ok(()),
            Err(_) => {
                let _row = self.rows.pop();
                Err(AllocError)
            }
        }
    }
}

/// Of rows whose greatest columns differ, each member of the span that is not empty has the greatest column of one of them as its own.
pub fn leads_are_kept()
    ensures { LeadsAreKept }
{}
