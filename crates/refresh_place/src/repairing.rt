ghost use Rattle.std.specs.Prelude.{◌≡◌, length, IfOk};
ghost use Rattle.usuba0.specs.Circuit.{IsSmall, HasFewColumns, products_of};
ghost use Rattle.core_refresh.specs.RefreshedCore.{marked};
ghost use Rattle.refresh_place.specs.RepairSet.{IsRepairSetOf, IsRepairOf};

use crate::laws::{attacks_on_refreshed_cores, left_out_of_view};
use core_refresh::refreshed;
use linear_view::{core_view_size, narrow_view};
use std::alloc::{AllocError, Global};
use tightprove::least_left_out;
use tor_edge::List;
use usuba0::Core;

/// A core without attacks, and the products of the core that it was made of which got a refresh.
#[derive(Drop)]
pub struct Repaired {
    pub core: Core,
    pub set: List<bool>,
}

// The marks of a repair set: of products without which the others have no attack.
fn repair_set(alloc: Global, core: &Core) -> Result<Vec<bool>, AllocError>
    requires small { IsSmall core.now }
    requires few_columns { HasFewColumns core.now }
    ensures marks { IfOk result (λ set. length set.items ≡ products_of core.now.equations) }
    ensures repairs { IfOk result (λ set. IsRepairSetOf core.now (marked set.items)) }
{
    left_out_of_view();
    core_view_size();
    let _width = core.width();
    let view = narrow_view(alloc, core)?;
    let set = least_left_out(alloc, &view)?;
    Ok(set)
}

// The marks as a list.
fn listed(alloc: Global, marks: &[bool]) -> Result<List<bool>, AllocError>
    ensures { IfOk result (λ list. list ≡ marks.now) }
{
    let mut list = List::new(alloc);
    for mark in marks {
        list.push(*mark)?;
    }
    Ok(list)
}

/// A repair set of the core, and its refreshed core: it has no attack, and would have one if any product of the set were
/// left out.
pub fn repair(alloc: Global, core: &Core) -> Result<Repaired, AllocError>
    requires small { IsSmall core.now }
    requires few_columns { HasFewColumns core.now }
    ensures { IfOk result (λ repaired. IsRepairOf core.now repaired.core repaired.set) }
{
    attacks_on_refreshed_cores();
    let _width = core.width();
    let marks = repair_set(alloc, core)?;
    let repaired = refreshed(alloc, core, marks.as_slice())?;
    let set = listed(alloc, marks.as_slice())?;
    Ok(Repaired {
        core: repaired,
        set,
    })
}
