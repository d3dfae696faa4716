ghost use Rattle.std.specs.Prelude.{◌≡◌, ◌<◌, List, length, reverse, IfOk};
ghost use Rattle.usuba_plan.specs.Plans.{IsPlanned};
ghost use Rattle.usuba_planner.specs.Judged.{IsJudgedFor};
ghost use Rattle.usuba_planner.specs.State.Sound.{IsSound, AllSound, IsStep, AllFew, signatures_before};

use crate::counts::add;
use crate::marks::{is_set, mark_called, set};
use crate::node::plan_definition;
use std::alloc::{AllocError, Global};
use usuba_plan::Plan;
use usuba_trees::{Def, File};
use usuba_walk::Definitions;

// What calls see of all definitions of a file.
fn all_definitions<'a>(alloc: Global, defs: &'a [Def]) -> Result<Definitions<'a>, AllocError>
    requires { AllFew defs.now }
    ensures { IfOk result (λ definitions. definitions ≡ signatures_before defs.now (length defs.now)) }
{
    let mut definitions = Definitions::new(alloc);
    for definition in defs {
        add(&mut definitions, definition)?;
    }
    Ok(definitions)
}

// The plan of a definition after these earlier ones, where its number is marked; what it calls is marked then.
fn plan_marked(
    alloc: Global,
    width: u32,
    earlier: &Definitions<'_>,
    definition: &Def,
    number: usize,
    marks: &mut Vec<bool>,
) -> Result<Plan, AllocError>
    requires sound { IsSound width earlier.now definition.now }
    requires number { number ≡ length earlier.now }
    ensures { IfOk result (IsStep earlier.now definition.now marks.old.items marks.new.items) }
{
    if !is_set(marks, number) {
        return Ok(Plan::Absent);
    }
    let plan = plan_definition(alloc, width, earlier, definition)?;
    mark_called(&plan, marks);
    Ok(plan)
}

// The plans of definitions, the last first: from the last to the first each is planned that is the entry or was called by
// then.
fn plan_backwards(
    alloc: Global,
    width: u32,
    defs: &[Def],
    entry: usize,
) -> Result<Vec<Plan>, AllocError>
    requires sound { AllSound width defs.now }
    requires within { entry < length defs.now }
    ensures { IfOk result (λ plans. IsPlanned defs.now (reverse plans.items) entry) }
{
    let mut earlier = all_definitions(alloc, defs)?;
    let mut marks = vec![in alloc; false; defs.len()]?;
    set(&mut marks, entry);
    let mut plans = Vec::new(alloc);
    for number in (0..defs.len()).rev() {
        earlier.forget();
        let plan = plan_marked(alloc, width, &earlier, &defs[number], number, &mut marks)?;
        plans.push(plan)?;
    }
    Ok(plans)
}

/// The plans of the definitions of a judged file, each at its definition's place: those that the entry reaches are planned,
/// the others are absent.
///
/// Only what the entry reaches is walked, each definition once.
pub fn plan_file(
    alloc: Global,
    file: &File,
    width: u32,
    entry: usize,
) -> Result<Vec<Plan>, AllocError>
    requires { IsJudgedFor file.now width entry }
    ensures { IfOk result (λ plans. IsPlanned file.now.defs plans.items entry) }
{
    let mut plans = plan_backwards(alloc, width, file.defs.as_slice(), entry)?;
    plans.reverse();
    Ok(plans)
}
