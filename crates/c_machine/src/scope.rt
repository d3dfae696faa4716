//! The names in scope.
ghost use Rattle.std.specs.Prelude.{◌≡◌, ◌++◌, ◌∷◌, [], OnOk, vec_items};
ghost use Rattle.c_machine.specs.Scope as machine;
ghost use Rattle.c_machine.specs.State.Scopes.{meaning_of, scope_of};
ghost use Rattle.std.specs.Option.{option_map};

use c_tree::{CIndex, CLow};
use std::alloc::AllocError;
use tor_edge::Name;

/// What a name stands for: an array's row in memory, a word, a counter.
#[derive(Clone, Copy, Drop)]
pub enum Meant {
    Row(usize),
    Word(u64),
    Counter(u32),
}

/// A name in scope.
#[derive(Clone, Copy, Drop)]
pub struct Named<'a> {
    pub name: &'a str,
    pub meant: Meant,
}

// A name comes into scope.
pub fn add_name<'a>(
    names: &mut Vec<Named<'a>>,
    name: &'a str,
    meant: Meant,
) -> Result<(), AllocError>
    ensures { OnOk result (scope_of (vec_items names.new)
        ≡ scope_of (vec_items names.old) ++ record { name = name.now; meaning = meaning_of meant } ∷ []) }
{
    names.push(Named { name, meant })?;
    Ok(())
}

// What a name stands for, where it is in scope.
fn meant_by(names: &[Named<'_>], name: &Name) -> Option<Meant>
    ensures { option_map meaning_of result ≡ machine.meant_by (scope_of names.now) name.now }
{
    for named in names {
        if named.name == name.as_str() {
            return Some(named.meant);
        }
    }
    None
}

// The row of an array.
pub fn row_of(names: &[Named<'_>], array: &Name) -> Option<usize>
    ensures { result ≡ machine.row_of (machine.meant_by (scope_of names.now) array.now) }
{
    match meant_by(names, array)? {
        Meant::Row(row) => Some(row),
        Meant::Word(_) | Meant::Counter(_) => None,
    }
}

// The value of a word.
pub fn word_of(names: &[Named<'_>], name: &Name) -> u64
    ensures { result ≡ machine.word_of (machine.meant_by (scope_of names.now) name.now) }
{
    match meant_by(names, name) {
        Some(Meant::Word(word)) => word,
        Some(Meant::Row(_) | Meant::Counter(_)) | None => 0,
    }
}

// The value of a counter.
pub fn counter_of(names: &[Named<'_>], name: &Name) -> u32
    ensures { result ≡ machine.counter_of (machine.meant_by (scope_of names.now) name.now) }
{
    match meant_by(names, name) {
        Some(Meant::Counter(value)) => value,
        Some(Meant::Row(_) | Meant::Word(_)) | None => 0,
    }
}

// The number of an index.
pub fn index_value(names: &[Named<'_>], index: &CIndex) -> u64
    ensures { result ≡ machine.index_value (scope_of names.now) index.now }
{
    match index {
        CIndex::Number(number) => *number,
        CIndex::Counter(name) => u64::from(counter_of(names, name)),
    }
}

// Where a loop begins.
pub fn low_value(names: &[Named<'_>], low: &CLow) -> u64
    ensures { result ≡ machine.low_value (scope_of names.now) low.now }
{
    match low {
        CLow::Number(number) => *number,
        CLow::After(name) => u64::from(counter_of(names, name)) + 1,
    }
}
