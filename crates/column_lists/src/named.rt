//! The column that a word names.
ghost use Rattle.std.specs.Prelude.{◌≡◌, ◌==◌, true, [], ◌∷◌, Some};
ghost use Rattle.std.specs.List.{slice_split};
ghost use Rattle.std.specs.Option.{option_map};
ghost use Rattle.column_lists.specs.Names as names;
ghost use Rattle.column_lists.specs.Reading.{fitting};
ghost use Rattle.text_lines.specs.Numbers as numbers;

use linear_view::{Column, ColumnKind};
use text_lines::{Words, cut, is_number, number_below};

/// A word that is a column by its form.
#[derive(Clone, Copy)]
pub(crate) enum Named {
    Known(Column),
    /// With a number that no column has.
    Unknown,
}

/// Whether all the words are columns by their form.
pub fn are_columns(mut words: Words<'_>) -> bool
    ensures { result ≡ names.are_columns words.entry }
{
    while let Some(word) = words.next_word() {
        if column_of(word).is_none() {
            return false;
        }
    }
    true
}

/// The column that a word names.
pub(crate) fn column_of(word: &[u8]) -> Option<Named>
    ensures { result ≡ option_map fitting (names.column_of word.now) }
{
    match word.split_first() {
        Some((letter, place)) => column_of_kind(kind_of(*letter), place),
        None => None,
    }
}

fn kind_of(letter: u8) -> Option<ColumnKind>
    ensures { result ≡ names.kind_of letter }
{
    match letter {
        b'i' => Some(ColumnKind::Input),
        b'p' => Some(ColumnKind::Product),
        b'f' => Some(ColumnKind::Refresh),
        _ => None,
    }
}

// The column of a kind, at what stands behind the letter.
fn column_of_kind(kind: Option<ColumnKind>, place: &[u8]) -> Option<Named>
    ensures { result ≡ option_map fitting (names.column_of_parts kind (slice_split (λ byte. byte == 46) place.now)) }
{
    match kind {
        Some(kind) => column_at(kind, place),
        None => None,
    }
}

// The column whose numbers stand before and after the one dot.
fn column_at(kind: ColumnKind, place: &[u8]) -> Option<Named>
    ensures { result
        ≡ option_map fitting (names.column_of_parts (Some kind) (slice_split (λ byte. byte == 46) place.now)) }
{
    match cut(place, b'.') {
        None => None,
        Some((number, bit)) => match cut(bit, b'.') {
            None => column_of_parts(kind, number, bit),
            Some(_) => None,
        },
    }
}

fn column_of_parts(kind: ColumnKind, number: &[u8], bit: &[u8]) -> Option<Named>
    ensures { result ≡ option_map fitting (names.column_of_parts (Some kind) (number.now ∷ bit.now ∷ [])) }
{
    if !is_number(number) || !is_number(bit) {
        return None;
    }
    Some(known_column(kind, number, bit))
}

fn known_column(kind: ColumnKind, number: &[u8], bit: &[u8]) -> Named
    requires number { numbers.is_number number.now ≡ true }
    requires bit { numbers.is_number bit.now ≡ true }
    ensures { result
        ≡ fitting (record { kind = kind; number = numbers.value_of number.now; bit = numbers.value_of bit.now }) }
{
    match (number_below(number, 1 << 32), number_below(bit, 1 << 32)) {
        (Some(number), Some(bit)) => Named::Known(Column { kind, number, bit }),
        _ => Named::Unknown,
    }
}
