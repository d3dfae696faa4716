ghost use Rattle.std.specs.Prelude.{◌≡◌, option_to_list};
ghost use Rattle.ready_order.specs.State.Marks.{is_marked, marked, all_marked};
ghost use Rattle.usuba_planner.specs.State.Calls.{called, called_in, all_called, called_by};

use usuba_code::{Operation, Table};
use usuba_plan::Plan;

/// Whether a definition is marked, by its number.
pub fn is_set(marks: &Vec<bool>, number: usize) -> bool
    ensures { result ≡ is_marked marks.now.items number }
{
    marks.get(number).copied().unwrap_or(false)
}

/// Marks a definition, by its number.
pub fn set(marks: &mut Vec<bool>, number: usize)
    ensures { marks.new.items ≡ marked marks.old.items number }
{
    if number < marks.len() {
        marks[number] = true;
    }
}

// The number of the definition that an operation calls.
fn callee(operation: &Operation) -> Option<u32>
    ensures { option_to_list result ≡ called operation.now }
{
    match operation {
        Operation::Call { callee, .. } => Some(*callee),
        _ => None,
    }
}

// Marks what code calls.
fn mark_code(code: &[Operation], marks: &mut Vec<bool>)
    ensures { marks.new.items ≡ all_marked marks.old.items (called_in code.now) }
{
    for operation in code {
        if let Some(number) = callee(operation) {
            set(marks, number as usize);
        }
    }
}

// Marks what instances call.
fn mark_table(table: &Table, marks: &mut Vec<bool>)
    ensures { marks.new.items ≡ all_marked marks.old.items (all_called table.now.done) }
{
    for k in 0..table.len() {
        mark_code(table.operations(k), marks);
    }
}

/// Marks what a plan calls.
pub fn mark_called(plan: &Plan, marks: &mut Vec<bool>)
    ensures { marks.new.items ≡ all_marked marks.old.items (called_by plan.now) }
{
    match plan {
        Plan::Node(node) => mark_table(&node.table, marks),
        Plan::Table(_) | Plan::Permutation | Plan::Absent => {}
    }
}
