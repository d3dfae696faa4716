//! The row that a list of columns stands for.
ghost use Rattle.std.specs.Prelude.{◌≡◌, ◌∷◌, [], ℕ, List, false, None, Some, IfOk, MatchOption};
ghost use Rattle.column_lists.specs.Names.{column_of};
ghost use Rattle.column_lists.specs.Reading.{named_of};
ghost use Rattle.column_lists.specs.Rows.{is_column, named_row};
ghost use Rattle.linear_view.specs.declared.column.Column.{Column};

use crate::named::{Named, column_of};
use gf2_span::BitRow;
use linear_view::{Column, View};
use std::alloc::{AllocError, Global};
use text_lines::Words;

/// The row that the words stand for, if they name some of the view's columns in their order.
pub fn read_row(
    alloc: Global,
    view: &View,
    mut words: Words<'_>,
) -> Result<Option<BitRow>, AllocError>
    ensures { IfOk result (λ row. row ≡ named_row view.now.columns words.entry) }
{
    let columns = view.columns();
    let mut row = BitRow::new(alloc, columns)?;
    let mut next = next_named(&mut words);
    for c in 0..columns {
        if is_next(next, view.column(c)) {
            row.flip(c);
            next = next_named(&mut words);
        }
    }
    Ok(match next {
        Some(_) => None,
        None => Some(row),
    })
}

// What the next word names, if there is one.
fn next_named(words: &mut Words<'_>) -> Option<Named>
    ensures { MatchOption result
        ((words.old ≡ []) × (words.new ≡ []))
        (λ named. (word : List ℕ) × (words.old ≡ word ∷ words.new) × (named ≡ named_of word)) }
{
    let word = words.next_word()?;
    match column_of(word) {
        Some(named) => Some(named),
        None => Some(Named::Unknown),
    }
}

// Whether the column that is named next is this one.
fn is_next(next: Option<Named>, column: Option<Column>) -> bool
    ensures named { (word : List ℕ) (here : Column) → next ≡ Some (named_of word) → column ≡ Some here
        → result ≡ is_column (column_of word) here }
    ensures none { next ≡ None → result ≡ false }
{
    match (next, column) {
        (Some(Named::Known(named)), Some(column)) => named == column,
        _ => false,
    }
}
