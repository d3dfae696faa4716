// The words of rows: which basis rows a row is made of, and what is left of it.
ghost use Rattle.std.specs.Prelude.{◌≡◌, ◌+◌, ◌*◌, ◌^◌, ◌<◌, ◌≤◌, ◌++◌, [], ◌∷◌, length, All, IfOk, OnOk};
ghost use Rattle.span_model.specs.Columns.{set_of, sets_of, ◌△◌};
ghost use Rattle.span_model.specs.Span.{InSpan};
ghost use Rattle.gf2_span.specs.Basis.{row_sets};
ghost use Rattle.span_select.specs.Words.{raised, IsReduced, StandsFor, IsFrame, TakesIn, unit, IsLifted};

use gf2_span::{BitRow, Span, leads_are_kept};
use std::alloc::{AllocError, Global};

// The row in the upper half of twice as many columns.
fn raise(alloc: Global, row: &BitRow) -> Result<BitRow, AllocError>
    requires { length row.now < 2 ^ 31 }
    ensures columns { IfOk result (λ word. length word ≡ 2 * length row.now) }
    ensures raised { IfOk result (λ word. set_of word ≡ raised (length row.now) (set_of row.now)) }
{
    let columns = row.columns();
    let mut word = BitRow::new(alloc, 2 * columns)?;
    let mut start = 0;
    while let Some(c) = row.first_from(start) {
        word.flip(columns + c);
        start = c + 1;
    }
    Ok(word)
}

// Takes members of the span out of the row until it holds no greatest column of one.
fn reduce_by(span: &Span, row: &mut BitRow)
    requires { length row.old ≡ span.now.columns }
    ensures columns { length row.new ≡ length row.old }
    ensures same { InSpan (row_sets span.now) (set_of row.old △ set_of row.new) }
    ensures reduced { IsReduced (row_sets span.now) (set_of row.new) }
{
    let _rank = span.rank();
    leads_are_kept();
    span.reduce(row);
}

// The word of a row.
pub(crate) fn word_of(alloc: Global, basis: &Span, row: &BitRow) -> Result<BitRow, AllocError>
    requires small { length row.now < 2 ^ 31 }
    requires columns { basis.now.columns ≡ 2 * length row.now }
    ensures columns { IfOk result (λ word. length word ≡ 2 * length row.now) }
    ensures stands { IfOk result (λ word. StandsFor (length row.now) (row_sets basis.now) (set_of word) (set_of row.now)) }
    ensures reduced { IfOk result (λ word. IsReduced (row_sets basis.now) (set_of word)) }
{
    let mut word = raise(alloc, row)?;
    reduce_by(basis, &mut word);
    Ok(word)
}

// The row of the one column.
fn single(alloc: Global, columns: u32, c: u32) -> Result<BitRow, AllocError>
    requires { c < columns }
    ensures columns { IfOk result (λ row. length row ≡ columns) }
    ensures unit { IfOk result (λ row. set_of row ≡ unit c) }
{
    let mut row = BitRow::new(alloc, columns)?;
    row.flip(c);
    Ok(row)
}

// The word of one more row of the group of this number. A row that the basis does not span is put into it.
fn take_in(
    alloc: Global,
    basis: &mut Span,
    owners: &mut Vec<usize>,
    group: usize,
    row: &BitRow,
) -> Result<BitRow, AllocError>
    requires small { length row.now < 2 ^ 31 }
    requires columns { basis.old.columns ≡ 2 * length row.now }
    requires frame { IsFrame (length row.now) (row_sets basis.old) owners.old.items }
    requires last_group { All (λ owner. owner ≤ group) owners.old.items }
    ensures basis_columns { basis.new.columns ≡ basis.old.columns }
    ensures columns { IfOk result (λ word. length word ≡ 2 * length row.now) }
    ensures frame { OnOk result (IsFrame (length row.now) (row_sets basis.new) owners.new.items) }
    ensures last_group { OnOk result (All (λ owner. owner ≤ group) owners.new.items) }
    ensures takes_in { IfOk result (λ word. TakesIn (length row.now) group (row_sets basis.old) owners.old.items (row_sets basis.new) owners.new.items (set_of row.now ∷ []) (set_of word ∷ [])) }
{
    let columns = row.columns();
    let mut word = word_of(alloc, basis, row)?;
    match word.last() {
        Some(c) if c >= columns => {
            let coordinate = basis.rank();
            let own = single(alloc, 2 * columns, coordinate)?;
            word.add(&own);
            let _fresh = basis.insert(word)?;
            owners.push(group)?;
            Ok(own)
        }
        _ => Ok(word),
    }
}

// The words of the rows of the group of this number.
pub(crate) fn take_in_all(
    alloc: Global,
    basis: &mut Span,
    owners: &mut Vec<usize>,
    group: usize,
    columns: u32,
    rows: &[BitRow],
) -> Result<Vec<BitRow>, AllocError>
    requires small { columns < 2 ^ 31 }
    requires basis_columns { basis.old.columns ≡ 2 * columns }
    requires rows { All (λ row. length row ≡ columns) rows.now }
    requires frame { IsFrame columns (row_sets basis.old) owners.old.items }
    requires last_group { All (λ owner. owner ≤ group) owners.old.items }
    ensures basis_columns { basis.new.columns ≡ basis.old.columns }
    ensures columns { IfOk result (λ words. All (λ word. length word ≡ 2 * columns) words.items) }
    ensures frame { OnOk result (IsFrame columns (row_sets basis.new) owners.new.items) }
    ensures takes_in { IfOk result (λ words. TakesIn columns group (row_sets basis.old) owners.old.items (row_sets basis.new) owners.new.items (sets_of rows.now) (sets_of words.items)) }
{
    let mut words = Vec::new(alloc);
    for row in rows {
        words.push(take_in(alloc, basis, owners, group, row)?)?;
    }
    Ok(words)
}

// The span of the words of rows.
pub(crate) fn lift(
    alloc: Global,
    basis: &Span,
    columns: u32,
    rows: &[BitRow],
) -> Result<Span, AllocError>
    requires small { columns < 2 ^ 31 }
    requires basis_columns { basis.now.columns ≡ 2 * columns }
    requires rows { All (λ row. length row ≡ columns) rows.now }
    ensures columns { IfOk result (λ span. span.columns ≡ 2 * columns) }
    ensures lifted { IfOk result (λ span. IsLifted columns (row_sets basis.now) (sets_of rows.now) (row_sets span)) }
{
    let mut span = Span::new(alloc, 2 * columns)?;
    for row in rows {
        let _fresh = span.insert(word_of(alloc, basis, row)?)?;
    }
    Ok(span)
}
