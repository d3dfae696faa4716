ghost use Rattle.std.specs.Prelude.{◌≡◌, ◌≤◌, None, Some, true, length, IfOk};
ghost use Rattle.usuba_trees.specs.declared.Def.TheVariants as def;
ghost use Rattle.usuba_model.specs.declared.fault.FaultKind.TheVariants.{Cyclic};
ghost use Rattle.usuba_model.specs.Faults.{first_of};
ghost use Rattle.usuba_model.specs.Walk.{most_operations, definition_steps, walk_fault};
ghost use Rattle.ready_order.specs.Numbered.{AreBelow, cyclic_numbered};
ghost use Rattle.ready_order.specs.Order.{IsReadyOrder};
ghost use Rattle.usuba_walk.specs.Walking.{coded_definition};
ghost use Rattle.usuba_plan.specs.Plans.{IsNodePlan, IsPlanOf, is_planned};
ghost use Rattle.usuba_planner.specs.State.Sound.{IsSound};

use crate::counts::count;
use ready_order::{Order, order_of};
use std::alloc::{AllocError, Global};
use usuba_code::Table;
use usuba_plan::{NodePlan, Plan};
use usuba_trees::{Def, Node};
use usuba_walk::{Definitions, Walked, walk_definition};

// The instances of a definition that is walked without a fault.
fn instances(
    alloc: Global,
    width: u32,
    earlier: &Definitions<'_>,
    definition: &Def,
) -> Result<Table, AllocError>
    requires { walk_fault 0 (definition_steps width earlier.now definition.now) ≡ None }
    ensures { IfOk result (λ table. table.done ≡ coded_definition earlier.now definition.now) }
{
    match walk_definition(alloc, width, earlier, definition)? {
        Walked::Whole { table, .. } => Ok(table),
        Walked::Fault(_) => unreachable!(),
    }
}

// An order of instances all of which become ready.
fn ready(alloc: Global, table: &Table, inputs: u32, cells: u32) -> Result<Vec<u32>, AllocError>
    requires few { length table.now.done ≤ most_operations }
    requires inputs { inputs ≤ cells }
    requires cells { AreBelow cells table.now.done }
    requires ready { first_of Cyclic (cyclic_numbered inputs table.now.done) ≡ None }
    ensures { IfOk result (λ order. IsReadyOrder inputs table.now.done order.items) }
{
    match order_of(alloc, table, inputs, cells)? {
        Order::Ready(order) => Ok(order),
        Order::Stuck(_) => unreachable!(),
    }
}

// The plan of a node.
fn plan_node(
    alloc: Global,
    width: u32,
    earlier: &Definitions<'_>,
    definition: &Def,
    node: &Node,
) -> Result<NodePlan, AllocError>
    requires sound { IsSound width earlier.now definition.now }
    requires node { definition.now ≡ def.Node node.now }
    ensures { IfOk result (IsNodePlan earlier.now node.now) }
{
    let inputs = count(node.inputs.as_slice());
    let outputs = count(node.outputs.as_slice());
    let cells = inputs + outputs + count(node.locals.as_slice());
    let table = instances(alloc, width, earlier, definition)?;
    let order = ready(alloc, &table, inputs, cells)?;
    Ok(NodePlan {
        cells,
        inputs,
        outputs,
        table,
        order,
    })
}

/// The plan of a definition after these earlier ones.
pub fn plan_definition(
    alloc: Global,
    width: u32,
    earlier: &Definitions<'_>,
    definition: &Def,
) -> Result<Plan, AllocError>
    requires { IsSound width earlier.now definition.now }
    ensures of { IfOk result (λ plan. IsPlanOf earlier.now plan definition.now) }
    ensures planned { IfOk result (λ plan. is_planned (Some plan) ≡ true) }
{
    match definition {
        Def::Node(node) => {
            let plan = plan_node(alloc, width, earlier, definition, node)?;
            Ok(Plan::Node(plan))
        }
        Def::Table(grid) => Ok(Plan::Table(count(grid.outputs.as_slice()))),
        Def::Perm(_) => Ok(Plan::Permutation),
    }
}
