ghost use Rattle.std.specs.Prelude.{◌≡◌, ◌-◌, ◌-ℤ◌, ◌∷◌, [], length, take, Some, OnOk};
ghost use Rattle.usuba_model.specs.Unrolled.{from_up};
ghost use Rattle.usuba_model.specs.Walk.{walk_fault, bounds_step};
ghost use Rattle.usuba_cells.specs.Counters.{around, computed_of};
ghost use Rattle.usuba_walk.specs.State.Progress.{IfFault, Takes, with_instances};
ghost use Rattle.usuba_walk.specs.State.Scopes.{item_steps_in, item_coded_in, items_steps_in, items_coded_in};
ghost use Rattle.usuba_walk.specs.State.Scopes.{loop_steps_in, loop_coded_in, instance_steps_in, instances_coded_in};
ghost use Rattle.usuba_walk.specs.State.Scopes.{one_instance_steps, one_instance_coded};

use crate::count::counted;
use crate::equation::walk_equation;
use crate::faults::{first, when};
use crate::progress::Progress;
use crate::scope::Scope;
use crate::stop::Stop;
use std::alloc::AllocError;
use usuba_cells::{Computed, Counter, compute};
use usuba_model::FaultKind;
use usuba_trees::{Item, Loop};

/// Walks items in text order.
#[cycle(items)]
pub fn walk_items<'a>(
    scope: &Scope<'_>,
    counters: &mut Vec<Counter<'a>>,
    progress: &mut Progress,
    items: &'a [Item],
) -> Result<(), Stop>
    ensures counters_stay { OnOk result (counters.new.items ≡ counters.old.items) }
    ensures takes { OnOk result (Takes progress.old progress.new (items_steps_in scope.now counters.old.items items.now)
        (with_instances progress.old.table (items_coded_in scope.now counters.old.items items.now))) }
    ensures stops { IfFault result
        (λ found. walk_fault progress.old.count (items_steps_in scope.now counters.old.items items.now)
        ≡ Some found) }
{
    for item in items {
        walk_item(scope, counters, progress, item)?;
    }
    Ok(())
}

#[cycle(items)]
fn walk_item<'a>(
    scope: &Scope<'_>,
    counters: &mut Vec<Counter<'a>>,
    progress: &mut Progress,
    item: &'a Item,
) -> Result<(), Stop>
    ensures counters_stay { OnOk result (counters.new.items ≡ counters.old.items) }
    ensures takes { OnOk result (Takes progress.old progress.new (item_steps_in scope.now counters.old.items item.now)
        (with_instances progress.old.table (item_coded_in scope.now counters.old.items item.now))) }
    ensures stops { IfFault result
        (λ found. walk_fault progress.old.count (item_steps_in scope.now counters.old.items item.now) ≡ Some found) }
{
    match item {
        Item::Equation(equation) => {
            walk_equation(scope, counters.as_slice(), progress, equation)
        }
        Item::Loop(repeated) => walk_loop(scope, counters, progress, repeated),
    }
}

// What the bounds of a loop have at fault.
fn bounds_fault(low: &Computed, high: &Computed) -> Option<FaultKind>
    ensures { result ≡ (bounds_step (record { line = 0; column = 0 }) (computed_of low.now)
        (computed_of high.now)).fault }
{
    first(
        when(
            low.divided_by_zero || high.divided_by_zero,
            FaultKind::ZeroDivisor,
        ),
        when(low.too_big || high.too_big, FaultKind::IndexOut),
    )
}

// Walks a loop: its bounds, then its instances.
#[cycle(items)]
fn walk_loop<'a>(
    scope: &Scope<'_>,
    counters: &mut Vec<Counter<'a>>,
    progress: &mut Progress,
    repeated: &'a Loop,
) -> Result<(), Stop>
    ensures counters_stay { OnOk result (counters.new.items ≡ counters.old.items) }
    ensures takes { OnOk result
        (Takes progress.old progress.new (loop_steps_in scope.now counters.old.items repeated.now)
        (with_instances progress.old.table (loop_coded_in scope.now counters.old.items repeated.now))) }
    ensures stops { IfFault result
        (λ found. walk_fault progress.old.count (loop_steps_in scope.now counters.old.items repeated.now)
        ≡ Some found) }
{
    let low = compute(&repeated.low, counters.as_slice());
    let high = compute(&repeated.high, counters.as_slice());
    let fault = bounds_fault(&low, &high);
    progress.count = counted(progress.count, repeated.place, 0, fault)?;
    match (low.value, high.value) {
        (Some(low), Some(high)) => walk_instances(scope, counters, progress, repeated, low, high),
        _ => Ok(()),
    }
}

// Walks the instances of a loop whose counter goes from a value to another.
#[cycle(items)]
fn walk_instances<'a>(
    scope: &Scope<'_>,
    counters: &mut Vec<Counter<'a>>,
    progress: &mut Progress,
    repeated: &'a Loop,
    low: i64,
    high: i64,
) -> Result<(), Stop>
    ensures counters_stay { OnOk result (counters.new.items ≡ counters.old.items) }
    ensures takes { OnOk result
        (Takes progress.old progress.new
        (instance_steps_in scope.now counters.old.items repeated.now (from_up low (high -ℤ low)))
        (with_instances progress.old.table
        (instances_coded_in scope.now counters.old.items repeated.now (from_up low (high -ℤ low))))) }
    ensures stops { IfFault result (λ found.
        walk_fault progress.old.count
        (instance_steps_in scope.now counters.old.items repeated.now (from_up low (high -ℤ low))) ≡ Some found) }
{
    for value in low..=high {
        walk_instance(scope, counters, progress, repeated, value)?;
    }
    Ok(())
}

// Adds the counter of a further loop, the innermost.
fn enter<'a>(counters: &mut Vec<Counter<'a>>, name: &'a str, value: i64) -> Result<(), AllocError>
    ensures entered { OnOk result
        (around counters.new.items ≡ record { name = name.now; value = value } ∷ around counters.old.items) }
    ensures kept { OnOk result (take (length counters.new.items - 1) counters.new.items ≡ counters.old.items) }
{
    counters.push(Counter { name, value })?;
    Ok(())
}

// Walks the instance of a loop for a value of its counter.
#[cycle(items)]
fn walk_instance<'a>(
    scope: &Scope<'_>,
    counters: &mut Vec<Counter<'a>>,
    progress: &mut Progress,
    repeated: &'a Loop,
    value: i64,
) -> Result<(), Stop>
    ensures counters_stay { OnOk result (counters.new.items ≡ counters.old.items) }
    ensures takes { OnOk result
        (Takes progress.old progress.new (one_instance_steps scope.now counters.old.items repeated.now value)
        (with_instances progress.old.table (one_instance_coded scope.now counters.old.items repeated.now value))) }
    ensures stops { IfFault result (λ found.
        walk_fault progress.old.count (one_instance_steps scope.now counters.old.items repeated.now value)
        ≡ Some found) }
{
    progress.count = counted(progress.count, repeated.place, 1, None)?;
    enter(counters, repeated.counter.text.as_str(), value)?;
    walk_items(scope, counters, progress, repeated.items.as_slice())?;
    let _ = counters.pop();
    Ok(())
}
