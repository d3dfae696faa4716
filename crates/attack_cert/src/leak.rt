ghost use Rattle.std.specs.Prelude.{◌≡◌, ◌<◌, ◌≤◌, ◌*◌, ◌^◌, ◌≢◌, [], length, map, All, IfOk, IfNone, IfSome};
ghost use Rattle.span_model.specs.Columns.{set_of, empty};
ghost use Rattle.span_model.specs.Attack.{IsLeak, IsAttack};
ghost use Rattle.span_model.specs.Closure.{co_operand};
ghost use Rattle.span_select.specs.RowGroups.{group_sets};
ghost use Rattle.linear_view.specs.View.{products_of};
ghost use Rattle.attack_model.specs.Derivations.{IsInOrder};
ghost use Rattle.attack_probes.specs.Derivations.{IsSound};
ghost use Rattle.attack_probes.specs.Unfolding.{unfolding_of};
ghost use Rattle.attack_cert.specs.Derivation.{IsDerivation};
ghost use Rattle.attack_cert.specs.Levelled.{levelled_steps, ReachLeak};

use crate::levels::{Levelled, levelled_steps};
use crate::numbers::{Numbered, with_numbers};
use crate::reached::reached_steps;
use attack_model::Derivation;
use attack_probes::unfolding_is_attack;
use gf2_span::BitRow;
use linear_view::View;
use span_select::Groups;
use std::alloc::{AllocError, Global};

/// The derivation of a leak, if there is an attack with it.
pub fn derive(alloc: Global, view: &View, leak: BitRow) -> Result<Option<Derivation>, AllocError>
    requires { length leak ≡ length view.now.columns }
    ensures none { IfOk result (λ found. IfNone found (¬ IsLeak (products_of view.now) (set_of leak))) }
    ensures leak { IfOk result (λ found. IfSome found (λ d. d.leak ≡ leak)) }
    ensures derivation { IfOk result (λ found. IfSome found (λ d. IsDerivation (products_of view.now) (set_of leak) d.steps d.root)) }
    ensures few { IfOk result (λ found. IfSome found (λ d. length d.steps ≤ 2 * length view.now.products)) }
    ensures products { IfOk result (λ found. IfSome found (λ d. All (λ step. step.product < length view.now.products) d.steps)) }
    ensures order { IfOk result (λ found. IfSome found (λ d. IsInOrder d.steps d.root)) }
    ensures attack { IfOk result (λ found. IfSome found (λ d. IsAttack (products_of view.now) (length (unfolding_of d.steps d.root)) (set_of leak) (unfolding_of d.steps d.root))) }
    ensures sound { IfOk result (λ found. IfSome found (λ d. IsSound (products_of view.now) (set_of leak) d.steps d.root)) }
{
    if leak.is_zero() {
        return Ok(None);
    }
    match levelled_steps(alloc, view, &leak)? {
        Some(listed) => {
            let Numbered { steps, root } = numbered_steps(alloc, view, &leak, &listed)?;
            unfolding_is_attack::<u32>();
            Ok(Some(Derivation { leak, steps, root }))
        }
        None => Ok(None),
    }
}

// Those of the listed steps that the root reaches, with their uses, numbered.
fn numbered_steps(
    alloc: Global,
    view: &View,
    leak: &BitRow,
    listed: &[Levelled],
) -> Result<Numbered, AllocError>
    requires columns { length leak.now ≡ length view.now.columns }
    requires nonempty { set_of leak.now ≢ empty }
    requires few { length listed.now < 2 ^ 32 }
    requires reach { ReachLeak (products_of view.now) (set_of leak.now) listed.now }
    ensures derivation { IfOk result (λ numbered. IsDerivation (products_of view.now) (set_of leak.now) numbered.steps numbered.root) }
    ensures fewer { IfOk result (λ numbered. length numbered.steps ≤ length listed.now) }
{
    let groups = co_operand_groups(alloc, view, listed)?;
    let reached = reached_steps(alloc, view, leak, listed, &groups)?;
    with_numbers(alloc, listed, &reached)
}

// The co-operands of the listed steps.
fn co_operand_groups(alloc: Global, view: &View, listed: &[Levelled]) -> Result<Groups, AllocError>
    requires { All (λ step. step.operand.product < length view.now.products) listed.now }
    ensures columns { IfOk result (λ groups. groups.columns ≡ length view.now.columns) }
    ensures groups { IfOk result (λ groups. group_sets groups ≡ map (co_operand (products_of view.now)) (levelled_steps listed.now)) }
{
    let mut groups = Groups::new(alloc, view.columns())?;
    for step in listed {
        groups.push(alloc, view.co_operand(step.operand))?;
    }
    Ok(groups)
}
