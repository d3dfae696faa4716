// The steps of a derivation, numbered from 0.
ghost use Rattle.std.specs.Prelude.{◌≡◌, ◌<◌, ◌≤◌, ◌^◌, ℕ, length, map, slice_index, slice_index_or, All, Contains, IfOk, IfSome};
ghost use Rattle.std.specs.List.Sorted.{IsStrictlyIncreasing};
ghost use Rattle.attack_cert.specs.Kept.{AreNumbered, kept_places};

use crate::levels::Levelled;
use crate::reached::{Kept, Reached};
use attack_model::Step;
use std::alloc::{AllocError, Global};
use tor_edge::List;

/// The steps of a derivation, and the numbers of those that its root uses.
#[derive(Drop)]
pub(crate) struct Numbered {
    pub steps: List<Step>,
    pub root: List<u32>,
}

/// The steps that are kept, with their numbers in place of their places.
pub(crate) fn with_numbers(
    alloc: Global,
    listed: &[Levelled],
    reached: &Reached,
) -> Result<Numbered, AllocError>
    requires few { length listed.now < 2 ^ 32 }
    requires rise { IsStrictlyIncreasing (kept_places reached.now.kept.items) }
    requires below { All (λ place. place < length listed.now) (kept_places reached.now.kept.items) }
    requires root { All (Contains (kept_places reached.now.kept.items)) reached.now.root }
    requires uses { All (λ step. All (Contains (kept_places reached.now.kept.items)) step.uses) reached.now.kept.items }
    ensures { IfOk result (λ numbered. AreNumbered listed.now reached.now.root reached.now.kept.items numbered.steps numbered.root) }
{
    let numbers = numbers_of(alloc, listed.len(), &reached.kept)?;
    let mut steps = List::new(alloc);
    for kept in &reached.kept {
        let operand = listed[kept.place as usize].operand;
        steps.push(Step {
            product: operand.product,
            side: operand.side,
            uses: looked_up(alloc, &numbers, kept.uses.as_slice())?,
        })?;
    }
    let root = looked_up(alloc, &numbers, reached.root.as_slice())?;
    Ok(Numbered { steps, root })
}

// By place: the number of the step that is kept there.
fn numbers_of(alloc: Global, places: usize, kept: &[Kept]) -> Result<Vec<u32>, AllocError>
    requires few { places < 2 ^ 32 }
    requires rise { IsStrictlyIncreasing (kept_places kept.now) }
    requires below { All (λ place. place < places) (kept_places kept.now) }
    ensures count { IfOk result (λ numbers. length numbers.items ≡ places) }
    ensures numbers { IfOk result (λ numbers. (k : ℕ) → k < length kept.now → slice_index numbers.items (slice_index (kept_places kept.now) k) ≡ k) }
{
    let mut numbers = vec![in alloc; 0u32; places]?;
    for (number, step) in kept.iter().enumerate() {
        numbers[step.place as usize] = number as u32;
    }
    Ok(numbers)
}

// The numbers at these places.
fn looked_up(alloc: Global, numbers: &[u32], places: &[u32]) -> Result<List<u32>, AllocError>
    requires { All (λ place. place < length numbers.now) places.now }
    ensures { IfOk result (λ found. found ≡ map (slice_index numbers.now) places.now) }
{
    let mut found = List::new(alloc);
    for place in places {
        found.push(numbers[*place as usize])?;
    }
    Ok(found)
}
