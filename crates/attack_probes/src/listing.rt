ghost use Rattle.std.specs.Prelude.{◌≡◌, ℕ, ◌++◌, ◌<◌, ◌≤◌, length, map, min, sum_by, reverse, slice_index, All, IfOk, OnOk};
ghost use Rattle.attack_probes.specs.Counts.{AreCounts};
ghost use Rattle.attack_model.specs.Derivations.{AreUses, IsInOrder, step_at};
ghost use Rattle.attack_model.specs.Ranges.{probe_of};
ghost use Rattle.attack_probes.specs.Unfolding.{unfolding_of, probe_on};
ghost use Rattle.attack_probes.specs.Listings.{Lists, probes_of};

use attack_model::{Derivation, Listing, MAX_PROBES, Probe, Side, Step};
use std::alloc::{AllocError, Global};
use tor_edge::List;

// Where counts of probes stop: more than are listed.
const MANY: u32 = MAX_PROBES + 1;

// A use of a step that is to be unfolded under a share.
#[derive(Debug, Clone, Copy)]
struct Use {
    step: u32,
    user: u32,
}

// How many probes the uses unfold to, by the counts for one use of each step.
fn count_of_uses(counts: &[u32], uses: &[u32]) -> u32
    requires { All (λ k. k < length counts.now) uses.now }
    ensures { result ≡ min (sum_by (λ k. slice_index counts.now k) uses.now) MANY }
{
    let mut count = 0u32;
    for k in uses {
        count = count.saturating_add(counts[*k as usize]).min(MANY);
    }
    count
}

// How many probes one use of each step unfolds to.
fn counts_of(alloc: Global, steps: &[Step]) -> Result<Vec<u32>, AllocError>
    requires { (k : ℕ) → k < length steps.now → AreUses k (step_at steps.now k).uses }
    ensures { IfOk result (λ counts. AreCounts steps.now counts.items) }
{
    let mut counts = Vec::new(alloc);
    for step in steps {
        let below = count_of_uses(counts.as_slice(), step.uses.as_slice());
        counts.push((below + 1).min(MANY))?;
    }
    Ok(counts)
}

fn probe_of_use(step: &Step, own: u32, user: u32) -> Probe
    ensures { probe_of result ≡ probe_on step.now.side step.now.product own user }
{
    let product = step.product;
    match step.side {
        Side::Left => Probe {
            product,
            left_share: own,
            right_share: user,
        },
        Side::Right => Probe {
            product,
            left_share: user,
            right_share: own,
        },
    }
}

// Puts the uses on the stack, the first one on top.
fn push_uses(stack: &mut Vec<Use>, uses: &[u32], user: u32) -> Result<(), AllocError>
    ensures { OnOk result (stack.new.items ≡ stack.old.items ++ map (λ k. record { step = k; user = user }) (reverse uses.now)) }
{
    for k in uses.iter().rev() {
        stack.push(Use { step: *k, user })?;
    }
    Ok(())
}

// The probes of an unfolding that has few enough.
fn listed(alloc: Global, steps: &[Step], root: &[u32]) -> Result<List<Probe>, AllocError>
    requires order { IsInOrder steps.now root.now }
    requires few { length (unfolding_of steps.now root.now) ≤ MAX_PROBES }
    ensures { IfOk result (λ list. probes_of list ≡ unfolding_of steps.now root.now) }
{
    let mut list = List::new(alloc);
    let mut stack = Vec::new(alloc);
    push_uses(&mut stack, root, 0)?;
    while let Some(next) = stack.pop() {
        let step = &steps[next.step as usize];
        let share = list.len() as u32 + 1;
        list.push(probe_of_use(step, share, next.user))?;
        push_uses(&mut stack, step.uses.as_slice(), share)?;
    }
    Ok(list)
}

/// The probes of a derivation, in the order in which their shares are numbered.
pub fn unfold(alloc: Global, derivation: &Derivation) -> Result<Listing, AllocError>
    requires { IsInOrder derivation.now.steps derivation.now.root }
    ensures { IfOk result (λ listing. Lists listing (unfolding_of derivation.now.steps derivation.now.root)) }
{
    let steps = derivation.steps.as_slice();
    let root = derivation.root.as_slice();
    let counts = counts_of(alloc, steps)?;
    if count_of_uses(counts.as_slice(), root) > MAX_PROBES {
        return Ok(Listing::Large);
    }
    Ok(Listing::Probes(listed(alloc, steps, root)?))
}
