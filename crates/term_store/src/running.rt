ghost use Rattle.std.specs.Prelude.{◌≡◌, ◌<◌, ◌≤◌, IfOk, IfSome, Some};
ghost use Rattle.usuba0.specs.Circuit.{IsSmall, HasFewColumns, weight, columns};
ghost use Rattle.table_anf.specs.State.Emission.{StandFor};
ghost use Rattle.usuba_plan.specs.Room.{plan_room};
ghost use Rattle.usuba_plan.specs.Store.{Gives, Keeps};
ghost use Rattle.term_store.specs.TermStore.{term_store};
ghost use Rattle.term_store.specs.PlanCore.{terms_of_inputs, plan_terms, plan_core, CanMake, CanMakeCore};

use crate::terms::Terms;
use std::alloc::{AllocError, Global};
use usuba_plan::{Plan, run};
use usuba_trees::Def;
use usuba0::{CloseFault, Core, MAX_COLUMNS, MAX_WEIGHT, Reg};

// The registers of the first so many inputs.
fn input_registers(alloc: Global, terms: &Terms, inputs: u32) -> Result<Vec<Reg>, AllocError>
    requires { inputs ≤ terms.now.builder.inputs }
    ensures { IfOk result (λ registers. StandFor terms.now.builder registers.items (terms_of_inputs inputs)) }
{
    let mut registers = Vec::new(alloc);
    for k in 0..inputs {
        registers.push(terms.input(k))?;
    }
    Ok(registers)
}

/// The registers of the terms that the definition at a number makes of so many inputs, by its plan.
pub fn terms_of_plan(
    alloc: Global,
    terms: &mut Terms,
    defs: &[Def],
    plans: &[Plan],
    number: usize,
    inputs: u32,
) -> Result<Vec<Reg>, AllocError>
    requires { CanMake terms.old.builder defs.now plans.now number inputs }
    ensures made { IfOk result (λ outputs. Gives (term_store terms.new.builder) outputs.items
        (plan_terms terms.old.builder.width defs.now plans.now number inputs)) }
    ensures keeps { Keeps (plan_room defs.now plans.now number) (term_store terms.old.builder) (term_store terms.new.builder) }
{
    let registers = input_registers(alloc, terms, inputs)?;
    run(alloc, terms, defs, plans, number, registers.as_slice())
}

/// The core of what the definition at a number makes of so many inputs, by its plan. `CoreTooLarge` is tested before
/// `ColumnsTooMany`.
pub fn core_of_plan(
    alloc: Global,
    width: u32,
    defs: &[Def],
    plans: &[Plan],
    number: usize,
    inputs: u32,
) -> Result<Core, CloseFault>
    requires some_width { 0 < width }
    requires width_fits { width ≤ 64 }
    requires some_input { 0 < inputs }
    requires made { CanMakeCore width defs.now plans.now number inputs }
    ensures core { IfOk result (λ core. plan_core width defs.now plans.now number inputs ≡ Some core) }
    ensures within { IfOk result (λ core. IsSmall core × HasFewColumns core) }
    ensures too_large { result ≡ Err CloseFault.CoreTooLarge
        → IfSome (plan_core width defs.now plans.now number inputs) (λ core. MAX_WEIGHT < weight core) }
    ensures too_many { result ≡ Err CloseFault.ColumnsTooMany
        → IfSome (plan_core width defs.now plans.now number inputs) (λ core. IsSmall core × (MAX_COLUMNS < columns core)) }
{
    let mut terms = Terms::new(alloc, width, inputs)?;
    let outputs = terms_of_plan(alloc, &mut terms, defs, plans, number, inputs)?;
    terms.finish(alloc, outputs.as_slice())
}
