ghost use Rattle.std.specs.Prelude.{◌≡◌, ℕ, ◌≤◌, Some, IfOk, OnOk};
ghost use Rattle.usuba_code.specs.Machine.{with_answer, run_operation as operation_run, run_code as code_run};
ghost use Rattle.usuba_plan.specs.Made.{made_by_node, made_below, plan_outcome};
ghost use Rattle.usuba_plan.specs.Room.{operation_room, code_room, order_room, room_below, plan_room};
ghost use Rattle.usuba_plan.specs.Running.{CanRun};
ghost use Rattle.usuba_plan.specs.State.Handles.{environment_of};
ghost use Rattle.usuba_plan.specs.State.Runs.{CanRunNode, CanRunCode, CanRunOperation, CanCall};
ghost use Rattle.usuba_plan.specs.Store.{Gives, Keeps, meanings};

use crate::cells::{assign, begin, left_cells, permute, push_cell, read_all};
use crate::grids::entries;
use crate::operators::Elements;
use crate::plans::{NodePlan, Plan};
use crate::stack::{Unary, apply_last, combine_last, push_number, take_last};
use std::alloc::{AllocError, Global};
use usuba_code::Operation;
use usuba_trees::Def;

/// Runs the definition at a number on handles for its inputs, and answers those of its outputs.
#[cycle(running)]
pub fn run<E: Elements>(
    alloc: Global,
    elements: &mut E,
    defs: &[Def],
    plans: &[Plan],
    number: usize,
    inputs: &[E::Handle],
) -> Result<Vec<E::Handle>, AllocError>
    requires { CanRun (E.store elements.old) defs.now plans.now number inputs.now }
    ensures made { IfOk result (λ handles. Gives (E.store elements.new) handles.items
        (plan_outcome (E.store elements.old).operators defs.now plans.now number (meanings (E.store elements.old) inputs.now))) }
    ensures keeps { Keeps (plan_room defs.now plans.now number) (E.store elements.old) (E.store elements.new) }
{
    match &plans[number] {
        Plan::Node(node) => run_node(alloc, elements, defs, plans, number, node, inputs),
        Plan::Table(outputs) => elements.look_up(alloc, *outputs, entries(&defs[number]), inputs),
        Plan::Permutation => permute(alloc, entries(&defs[number]), inputs),
        Plan::Absent => unreachable!(),
    }
}

// Takes the instances of a node in the order of its plan.
#[cycle(running)]
fn run_node<E: Elements>(
    alloc: Global,
    elements: &mut E,
    defs: &[Def],
    plans: &[Plan],
    number: usize,
    node: &NodePlan,
    inputs: &[E::Handle],
) -> Result<Vec<E::Handle>, AllocError>
    requires { CanRunNode (E.store elements.old) defs.now plans.now number node.now inputs.now }
    ensures made { IfOk result (λ handles. Gives (E.store elements.new) handles.items
        (made_by_node (E.store elements.old).operators (made_below (E.store elements.old).operators defs.now plans.now number) node.now
        (meanings (E.store elements.old) inputs.now))) }
    ensures keeps { Keeps (order_room (room_below defs.now plans.now number) node.now.table.done node.now.order.items)
        (E.store elements.old) (E.store elements.new) }
{
    let mut environment = begin(alloc, node.cells as usize, inputs)?;
    for i in 0..node.order.len() {
        let instance = node.order[i] as usize;
        let mut stack = Vec::new(alloc);
        run_code(
            alloc,
            elements,
            defs,
            plans,
            number,
            node.table.operations(instance),
            environment.as_slice(),
            &mut stack,
        )?;
        let cells = left_cells(alloc, &node.table, instance)?;
        assign(&mut environment, cells.as_slice(), stack.as_slice());
    }
    read_all(alloc, environment.as_slice(), node.inputs, node.outputs)
}

// Runs code over cells, on a stack.
#[cycle(running)]
fn run_code<E: Elements>(
    alloc: Global,
    elements: &mut E,
    defs: &[Def],
    plans: &[Plan],
    number: usize,
    code: &[Operation],
    cells: &[Option<E::Handle>],
    stack: &mut Vec<E::Handle>,
) -> Result<(), AllocError>
    requires { CanRunCode (E.store elements.old) defs.now plans.now number code.now cells.now stack.old.items }
    ensures made { OnOk result (Gives (E.store elements.new) stack.new.items
        (code_run (E.store elements.old).operators (made_below (E.store elements.old).operators defs.now plans.now number)
        (environment_of (E.store elements.old) cells.now) code.now (meanings (E.store elements.old) stack.old.items))) }
    ensures keeps { Keeps (code_room (room_below defs.now plans.now number) code.now) (E.store elements.old) (E.store elements.new) }
{
    for operation in code {
        run_operation(
            alloc, elements, defs, plans, number, *operation, cells, stack,
        )?;
    }
    Ok(())
}

#[cycle(running)]
fn run_operation<E: Elements>(
    alloc: Global,
    elements: &mut E,
    defs: &[Def],
    plans: &[Plan],
    number: usize,
    operation: Operation,
    cells: &[Option<E::Handle>],
    stack: &mut Vec<E::Handle>,
) -> Result<(), AllocError>
    requires { CanRunOperation (E.store elements.old) defs.now plans.now number operation cells.now stack.old.items }
    ensures made { OnOk result (Gives (E.store elements.new) stack.new.items
        (operation_run (E.store elements.old).operators (made_below (E.store elements.old).operators defs.now plans.now number)
        (environment_of (E.store elements.old) cells.now) operation (meanings (E.store elements.old) stack.old.items))) }
    ensures keeps { Keeps (operation_room (room_below defs.now plans.now number) operation) (E.store elements.old) (E.store elements.new) }
{
    match operation {
        Operation::Number(value) => push_number(elements, value, stack),
        Operation::Cell(cell) => push_cell(cells, cell as usize, stack),
        Operation::Call { callee, inputs } => call(
            alloc,
            elements,
            defs,
            plans,
            callee as usize,
            inputs as usize,
            stack,
        ),
        Operation::Complement(count) => apply_last(
            elements,
            Unary::Complement,
            count as usize,
            stack,
        ),
        Operation::Combine(op, count) => combine_last(elements, op, count as usize, stack),
        Operation::Shift(kind, amount) => apply_last(
            elements,
            Unary::Shift(kind, amount),
            1,
            stack,
        ),
        Operation::Refresh {
            number: k,
            elements: count,
        } => apply_last(elements, Unary::Refresh(k), count as usize, stack),
    }
}

// Replaces the last so many handles by what the definition at a number makes of them.
#[cycle(running)]
fn call<E: Elements>(
    alloc: Global,
    elements: &mut E,
    defs: &[Def],
    plans: &[Plan],
    callee: usize,
    inputs: usize,
    stack: &mut Vec<E::Handle>,
) -> Result<(), AllocError>
    requires { CanCall (E.store elements.old) defs.now plans.now callee inputs stack.old.items }
    ensures made { OnOk result (Gives (E.store elements.new) stack.new.items
        (with_answer inputs (plan_outcome (E.store elements.old).operators defs.now plans.now callee) (meanings (E.store elements.old) stack.old.items))) }
    ensures keeps { Keeps (plan_room defs.now plans.now callee) (E.store elements.old) (E.store elements.new) }
{
    let taken = take_last(stack, inputs)?;
    let made = run(alloc, elements, defs, plans, callee, taken.as_slice())?;
    stack.extend_from_slice(made.as_slice())
}
