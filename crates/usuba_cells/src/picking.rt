// The elements that brackets pick of a variable, made from the last bracket to the first: each bracket copies what those after
// it pick, once for each of its parts.
ghost use Rattle.std.specs.Prelude.{◌≡◌, ◌≢◌, ◌+◌, ◌*◌, ◌<◌, ◌≤◌, ◌^◌, ◌++◌, length, take, drop, slice_range, pos, Some, false, vec_len, [], MatchOption, IfOk, OnOk};
ghost use Rattle.std.specs.List.{range_with_len};
ghost use Rattle.usuba_model.specs.Cells as model;
ghost use Rattle.usuba_model.specs.Shapes.{product as all_of};
ghost use Rattle.usuba_model.specs.Walk.{most_operations};
ghost use Rattle.usuba_cells.specs.State.Brackets.{picked_of, brackets};
ghost use Rattle.usuba_cells.specs.State.Copies.{raised, copies, next_part as part_after, later_parts};
ghost use Rattle.usuba_cells.specs.State.Sums.{AllBelow};

use crate::brackets::{Bracket, picked};
use crate::computing::Counter;
use crate::counting::product_from;
use std::alloc::AllocError;
use usuba_trees::Pick;

// The parts from the first to the last, both included, upwards or downwards.
#[derive(Clone, Copy, Drop)]
struct Parts {
    first: u32,
    last: u32,
}

// The parts that a bracket picks, if its indexes have values.
fn parts_of(bracket: Bracket) -> Option<Parts>
    requires { model.picks_outside (2 ^ 32) (picked_of bracket) ≡ false }
    ensures { MatchOption result
        (model.parts_between bracket.first.value bracket.last.value ≡ [])
        (λ parts. (bracket.first.value ≡ Some (pos parts.first)) × (bracket.last.value ≡ Some (pos parts.last))) }
{
    match (bracket.first.value, bracket.last.value) {
        (Some(first), Some(last)) => Some(Parts {
            first: first as u32,
            last: last as u32,
        }),
        _ => None,
    }
}

// The part after one on the way to the last.
fn next_part(part: u32, last: u32) -> u32
    requires { part ≢ last }
    ensures { result ≡ part_after part last }
{
    if part < last { part + 1 } else { part - 1 }
}

// Raises the numbers from `start` to `end`.
fn raise(numbers: &mut [u32], start: usize, end: usize, by: u32)
    requires order { start ≤ end }
    requires within { end ≤ length numbers.old }
    requires small { AllBelow (2 ^ 31) (slice_range numbers.old start end) }
    requires few { by ≤ most_operations }
    ensures { numbers.new ≡ take start numbers.old ++ raised by (slice_range numbers.old start end) ++ drop end numbers.old }
{
    // sizes of 1, of which there may be very many, raise by nothing
    if by == 0 {
        return;
    }
    for at in start..end {
        numbers[at] += by;
    }
}

// Appends the numbers from `start` to `end` once more, raised.
fn append_raised(
    numbers: &mut Vec<u32>,
    start: usize,
    end: usize,
    by: u32,
) -> Result<(), AllocError>
    requires order { start ≤ end }
    requires within { end ≤ length numbers.old.items }
    requires small { AllBelow (2 ^ 31) (slice_range numbers.old.items start end) }
    requires few { by ≤ most_operations }
    ensures { OnOk result (numbers.new.items ≡ numbers.old.items ++ raised by (slice_range numbers.old.items start end)) }
{
    let from = numbers.len();
    numbers.extend_from_within(start..end)?;
    let to = numbers.len();
    raise(numbers.as_mut_slice(), from, to, by);
    Ok(())
}

// Appends copies of the numbers from `start` to `end` for the parts after the first one.
fn append_later(
    numbers: &mut Vec<u32>,
    start: usize,
    end: usize,
    parts: Parts,
    stride: u32,
) -> Result<(), AllocError>
    requires order { start ≤ end }
    requires within { end ≤ length numbers.old.items }
    requires small { AllBelow (2 ^ 31) (slice_range numbers.old.items start end) }
    requires first { (parts.first + 1) * stride ≤ most_operations }
    requires last { (parts.last + 1) * stride ≤ most_operations }
    ensures { OnOk result (numbers.new.items
        ≡ numbers.old.items ++ copies stride (slice_range numbers.old.items start end) (later_parts parts.first parts.last)) }
{
    let mut part = parts.first;
    while part != parts.last {
        part = next_part(part, parts.last);
        append_raised(numbers, start, end, part * stride)?;
    }
    Ok(())
}

// Puts copies of the numbers from `start` on in their place, one for each part.
fn copy_for_parts(
    numbers: &mut Vec<u32>,
    start: usize,
    parts: Parts,
    stride: u32,
) -> Result<(), AllocError>
    requires within { start ≤ length numbers.old.items }
    requires small { AllBelow (2 ^ 31) (drop start numbers.old.items) }
    requires first { (parts.first + 1) * stride ≤ most_operations }
    requires last { (parts.last + 1) * stride ≤ most_operations }
    ensures { OnOk result (numbers.new.items
        ≡ take start numbers.old.items ++ copies stride (drop start numbers.old.items) (model.from_to parts.first parts.last)) }
{
    let end = numbers.len();
    append_later(numbers, start, end, parts, stride)?;
    raise(numbers.as_mut_slice(), start, end, parts.first * stride);
    Ok(())
}

// The same for the parts that a bracket picks of a size. Answers the stride of the size before it.
fn copy_for_bracket(
    numbers: &mut Vec<u32>,
    start: usize,
    bracket: Bracket,
    size: u64,
    stride: u32,
) -> Result<u32, AllocError>
    requires within { start ≤ length numbers.old.items }
    requires small { AllBelow (2 ^ 31) (drop start numbers.old.items) }
    requires inside { model.picks_outside size (picked_of bracket) ≡ false }
    requires stride { 0 < stride }
    requires few { size * stride ≤ most_operations }
    ensures numbers { OnOk result (numbers.new.items
        ≡ take start numbers.old.items
        ++ copies stride (drop start numbers.old.items) (model.parts_between bracket.first.value bracket.last.value)) }
    ensures stride { IfOk result (λ outer. outer ≡ size * stride) }
{
    match parts_of(bracket) {
        Some(parts) => copy_for_parts(numbers, start, parts, stride)?,
        None => numbers.truncate(start),
    }
    Ok(size as u32 * stride)
}

// Appends as many numbers from `first` on.
fn append_range(numbers: &mut Vec<u32>, first: u32, count: u32) -> Result<(), AllocError>
    requires { first + count ≤ most_operations }
    ensures { OnOk result (numbers.new.items ≡ numbers.old.items ++ range_with_len first count) }
{
    for number in first..first + count {
        numbers.push(number)?;
    }
    Ok(())
}

/// Appends the numbers of the elements that brackets pick of a variable whose first element has the number `first`.
pub fn append_elements(
    numbers: &mut Vec<u32>,
    first: u32,
    sizes: &[u64],
    picks: &[Pick],
    counters: &[Counter<'_>],
) -> Result<(), AllocError>
    requires some { 0 < all_of sizes.now }
    requires few { first + all_of sizes.now ≤ most_operations }
    requires inside { model.pick_outside sizes.now (brackets counters.now picks.now) ≡ false }
    ensures { OnOk result (numbers.new.items
        ≡ numbers.old.items ++ raised first (model.picked_elements sizes.now (brackets counters.now picks.now))) }
{
    let start = numbers.len();
    let mut level = picks.len();
    let mut stride = product_from(sizes, level) as u32;
    append_range(numbers, first, stride)?;
    while level > 0 {
        level -= 1;
        stride = copy_for_bracket(
            numbers,
            start,
            picked(&picks[level], counters),
            sizes[level],
            stride,
        )?;
    }
    Ok(())
}
