// The steps that the root reaches, from the last listed to the first.
ghost use Rattle.std.specs.Prelude.{◌≡◌, ◌⊎◌, ◌<◌, ◌≤◌, ◌^◌, ℕ, [], true, false, length, map, slice_index_or, All, Contains, IfOk};
ghost use Rattle.span_model.specs.Columns.{set_of};
ghost use Rattle.span_model.specs.Closure.{co_operand};
ghost use Rattle.span_select.specs.RowGroups.{group_sets};
ghost use Rattle.span_select.specs.Selection.{AreLeastNumbers};
ghost use Rattle.linear_view.specs.View.{products_of};
ghost use Rattle.attack_cert.specs.Levelled.{levelled_steps};
ghost use Rattle.attack_cert.specs.Kept.{AreSupported, AreReached, HasUses};

use crate::levels::Levelled;
use gf2_span::BitRow;
use linear_view::View;
use span_select::Groups;
use std::alloc::{AllocError, Global};
use tor_edge::List;

/// The place of a step among those that are listed, and the places of the steps that it uses.
#[derive(Debug, Drop)]
pub(crate) struct Kept {
    pub place: u32,
    pub uses: List<u32>,
}

/// The places of the steps that the root uses, and the steps that it reaches, in the order in which they are listed.
#[derive(Drop)]
pub(crate) struct Reached {
    pub root: List<u32>,
    pub kept: Vec<Kept>,
}

/// The steps that the root reaches.
pub(crate) fn reached_steps(
    alloc: Global,
    view: &View,
    leak: &BitRow,
    listed: &[Levelled],
    groups: &Groups,
) -> Result<Reached, AllocError>
    requires leak { length leak.now ≡ length view.now.columns }
    requires few { length listed.now < 2 ^ 32 }
    requires columns { groups.now.columns ≡ length view.now.columns }
    requires groups { group_sets groups.now ≡ map (co_operand (products_of view.now)) (levelled_steps listed.now) }
    requires supported { AreSupported (products_of view.now) (set_of leak.now) listed.now }
    ensures { IfOk result (λ reached. AreReached (products_of view.now) (set_of leak.now) listed.now reached.root reached.kept.items) }
{
    let root = root_uses(alloc, view, leak, listed, groups)?;
    let kept = kept_steps(alloc, view, leak, listed, groups, root.as_slice())?;
    Ok(Reached { root, kept })
}

// The steps that are reached from the places that the root uses. A step uses only steps that are listed before it, so one pass from the last to
// the first meets them all.
fn kept_steps(
    alloc: Global,
    view: &View,
    leak: &BitRow,
    listed: &[Levelled],
    groups: &Groups,
    root: &[u32],
) -> Result<Vec<Kept>, AllocError>
    requires leak { length leak.now ≡ length view.now.columns }
    requires few { length listed.now < 2 ^ 32 }
    requires columns { groups.now.columns ≡ length view.now.columns }
    requires groups { group_sets groups.now ≡ map (co_operand (products_of view.now)) (levelled_steps listed.now) }
    requires supported { AreSupported (products_of view.now) (set_of leak.now) listed.now }
    requires root { AreLeastNumbers [] (map (co_operand (products_of view.now)) (levelled_steps listed.now)) (set_of leak.now) root.now }
    ensures { IfOk result (λ kept. AreReached (products_of view.now) (set_of leak.now) listed.now root.now kept.items) }
{
    let mut needed = vec![in alloc; false; listed.len()]?;
    mark(&mut needed, root);
    let mut kept = Vec::new(alloc);
    let mut place = listed.len();
    while place > 0 {
        place -= 1;
        if needed[place] {
            let uses = uses_of(alloc, view, leak, listed, place, groups)?;
            mark(&mut needed, uses.as_slice());
            kept.push(Kept {
                place: place as u32,
                uses,
            })?;
        }
    }
    kept.reverse();
    Ok(kept)
}

// The least selection of the listed steps whose co-operands span the leak.
fn root_uses(
    alloc: Global,
    view: &View,
    leak: &BitRow,
    listed: &[Levelled],
    groups: &Groups,
) -> Result<List<u32>, AllocError>
    requires leak { length leak.now ≡ length view.now.columns }
    requires few { length listed.now < 2 ^ 32 }
    requires columns { groups.now.columns ≡ length view.now.columns }
    requires groups { group_sets groups.now ≡ map (co_operand (products_of view.now)) (levelled_steps listed.now) }
    requires supported { AreSupported (products_of view.now) (set_of leak.now) listed.now }
    ensures { IfOk result (λ uses. AreLeastNumbers [] (map (co_operand (products_of view.now)) (levelled_steps listed.now)) (set_of leak.now) uses) }
{
    let uses = groups
        .least(alloc, &[], leak, listed.len() as u32)?
        .unwrap();
    Ok(List::from_vec(uses))
}

// The least selection of the steps of lower levels whose co-operands, with the operand of the step at this place, span the leak.
fn uses_of(
    alloc: Global,
    view: &View,
    leak: &BitRow,
    listed: &[Levelled],
    place: usize,
    groups: &Groups,
) -> Result<List<u32>, AllocError>
    requires leak { length leak.now ≡ length view.now.columns }
    requires place { place < length listed.now }
    requires columns { groups.now.columns ≡ length view.now.columns }
    requires groups { group_sets groups.now ≡ map (co_operand (products_of view.now)) (levelled_steps listed.now) }
    requires supported { AreSupported (products_of view.now) (set_of leak.now) listed.now }
    ensures { IfOk result (λ uses. HasUses (products_of view.now) (set_of leak.now) listed.now place uses) }
{
    let step = listed[place];
    let own = view.operand(step.operand);
    let uses = groups.least(alloc, own, leak, step.lower)?.unwrap();
    Ok(List::from_vec(uses))
}

// Marks these places.
fn mark(needed: &mut Vec<bool>, places: &[u32])
    requires { All (λ place. place < length needed.old.items) places.now }
    ensures count { length needed.new.items ≡ length needed.old.items }
    ensures marked { All (λ place. slice_index_or needed.new.items place false ≡ true) places.now }
    ensures others { (place : ℕ) → slice_index_or needed.new.items place false ≡ true → (slice_index_or needed.old.items place false ≡ true) ⊎ Contains places.now place }
    ensures still { (place : ℕ) → slice_index_or needed.old.items place false ≡ true → slice_index_or needed.new.items place false ≡ true }
{
    for place in places {
        needed[*place as usize] = true;
    }
}
