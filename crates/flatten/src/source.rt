ghost use Rattle.std.specs.Prelude.{IfOk, IfErr};
ghost use Rattle.flatten.specs.CoreOf.{IsCoreOf, IsFlatRefusal};
ghost use Rattle.usuba0.specs.Circuit.{IsSmall, HasFewColumns};

use crate::fault::FlatFault;
use plan_bounds::plans_have_room;
use std::alloc::Global;
use term_store::{core_of_plan, plan_core_is_the_sources};
use usuba_planner::plan_file;
use usuba_types::Judged;
use usuba0::Core;

/// The core of a judged source, at the source's width. `CoreTooLarge` is tested before `ColumnsTooMany`.
pub fn core_of(alloc: Global, judged: &Judged) -> Result<Core, FlatFault>
    ensures core { IfOk result (IsCoreOf judged.now) }
    ensures within { IfOk result (λ core. IsSmall core × HasFewColumns core) }
    ensures refused { IfErr result (IsFlatRefusal judged.now) }
{
    plans_have_room();
    plan_core_is_the_sources();
    let width = judged.width();
    let entry = judged.entry();
    let file = judged.file();
    let plans = plan_file(alloc, file, width, entry)?;
    let core = core_of_plan(
        alloc,
        width,
        file.defs.as_slice(),
        plans.as_slice(),
        entry,
        judged.input_count(),
    )?;
    Ok(core)
}
