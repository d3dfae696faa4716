ghost use Rattle.std.specs.Prelude.{◌≡◌, ◌||◌, slice_get};
ghost use Rattle.std.specs.List.{list_any};
ghost use Rattle.usuba_model.specs.Cells as model;
ghost use Rattle.usuba_cells.specs.Counters.{around};
ghost use Rattle.usuba_cells.specs.State.Brackets.{picked_of, brackets, picks_outside_of};

use crate::computing::{Computed, Counter, compute};
use usuba_trees::Pick;

/// What is at fault with the brackets of a spot.
#[derive(Clone, Copy, Drop)]
pub struct SpotRead {
    /// Whether something was divided by zero in one of them.
    pub divided_by_zero: bool,
    /// Whether a number of 2^63 or more was met in one, or one picks past its size, or they are more than the sizes.
    pub index_out: bool,
}

/// What a bracket comes to. An index alone is a range from it to itself.
#[derive(Clone, Copy, Drop)]
pub struct Bracket {
    pub first: Computed,
    pub last: Computed,
}

/// Computes the indexes of a bracket.
pub fn picked(pick: &Pick, counters: &[Counter<'_>]) -> Bracket
    ensures { picked_of result ≡ model.picked (around counters.now) pick.now }
{
    match pick {
        Pick::One(index) => {
            let computed = compute(index, counters);
            Bracket {
                first: computed,
                last: computed,
            }
        }
        Pick::Range(first, last) => Bracket {
            first: compute(first, counters),
            last: compute(last, counters),
        },
    }
}

fn divides_by_zero(bracket: Bracket) -> bool
    ensures { result ≡ model.divides_by_zero (picked_of bracket) }
{
    bracket.first.divided_by_zero || bracket.last.divided_by_zero
}

fn meets_too_big(bracket: Bracket) -> bool
    ensures { result ≡ model.meets_too_big (picked_of bracket) }
{
    bracket.first.too_big || bracket.last.too_big
}

// Whether an index is at or above the size or below 0.
fn is_outside(size: u64, index: Option<i64>) -> bool
    ensures { result ≡ model.is_outside size index }
{
    match index {
        Some(index) => index < 0 || size <= index as u64,
        None => false,
    }
}

// Whether the bracket of a level picks past its size, or has none.
fn picks_outside(sizes: &[u64], level: usize, bracket: Bracket) -> bool
    ensures { result ≡ picks_outside_of (slice_get sizes.now level) (picked_of bracket) }
{
    match sizes.get(level) {
        Some(size) => {
            is_outside(*size, bracket.first.value) || is_outside(*size, bracket.last.value)
        }
        None => true,
    }
}

// What befell in the brackets so far.
#[derive(Clone, Copy, Drop)]
struct Befallen {
    divided_by_zero: bool,
    too_big: bool,
    outside: bool,
}

// The same with one more bracket.
fn with_bracket(before: Befallen, sizes: &[u64], level: usize, bracket: Bracket) -> Befallen
    ensures divided { result.divided_by_zero ≡ (before.divided_by_zero || model.divides_by_zero (picked_of bracket)) }
    ensures big { result.too_big ≡ (before.too_big || model.meets_too_big (picked_of bracket)) }
    ensures outside { result.outside ≡ (before.outside || picks_outside_of (slice_get sizes.now level) (picked_of bracket)) }
{
    Befallen {
        divided_by_zero: before.divided_by_zero || divides_by_zero(bracket),
        too_big: before.too_big || meets_too_big(bracket),
        outside: before.outside || picks_outside(sizes, level, bracket),
    }
}

/// What is at fault with brackets of a variable of these sizes.
pub fn read_brackets(sizes: &[u64], picks: &[Pick], counters: &[Counter<'_>]) -> SpotRead
    ensures divided { result.divided_by_zero ≡ list_any model.divides_by_zero (brackets counters.now picks.now) }
    ensures out { result.index_out
        ≡ (list_any model.meets_too_big (brackets counters.now picks.now) || model.pick_outside sizes.now (brackets counters.now picks.now)) }
{
    let mut so_far = Befallen {
        divided_by_zero: false,
        too_big: false,
        outside: false,
    };
    for (level, pick) in picks.iter().enumerate() {
        so_far = with_bracket(so_far, sizes, level, picked(pick, counters));
    }
    SpotRead {
        divided_by_zero: so_far.divided_by_zero,
        index_out: so_far.too_big || so_far.outside,
    }
}
