ghost use Rattle.std.specs.Prelude.{◌≡◌, ℕ, ◌-◌, ◌^◌, ◌≤◌, ◌||◌, nat_le, nat_lt, min};
ghost use Rattle.std.specs.List.{list_any};
ghost use Rattle.usuba_model.specs.Entries.{has_wrong_entries as has_wrong_entries_of, is_no_input, grid_fault};
ghost use Rattle.usuba_model.specs.Shapes.{elements as elements_of, all_elements as all_elements_of};
ghost use Rattle.usuba_phases.specs.State.Phases.{table_is_bad, permutation_is_bad, table_fault, permutation_fault};
ghost use Rattle.usuba_phases.specs.State.Phases.{grid_fault_in};

use usuba_model::{Fault, FaultKind};
use usuba_trees::{Decl, Def, File, Grid};

// How many elements a variable has, or the greatest number where they are more.
fn elements(declaration: &Decl) -> u64
    ensures { result ≡ min (elements_of declaration.now) (2 ^ 64 - 1) }
{
    let mut count = declaration.shape.count.unwrap_or(1);
    for size in declaration.shape.dims.as_slice() {
        count = count.saturating_mul(*size);
    }
    count
}

// How many elements variables have together, or the greatest number where they are more.
fn all_elements(declarations: &[Decl]) -> u64
    ensures { result ≡ min (all_elements_of declarations.now) (2 ^ 64 - 1) }
{
    let mut count: u64 = 0;
    for declaration in declarations {
        count = count.saturating_add(elements(declaration));
    }
    count
}

// Whether an entry has more bits than there are outputs.
fn is_too_wide(entry: u64, outputs: u64) -> bool
    requires { outputs ≤ 64 }
    ensures { result ≡ nat_le (2 ^ outputs) entry }
{
    if outputs == 64 {
        return false;
    }
    entry >= 1 << outputs
}

fn has_wide_entry(entries: &[u64], outputs: u64) -> bool
    requires { outputs ≤ 64 }
    ensures { result ≡ list_any (nat_le (2 ^ outputs)) entries.now }
{
    for entry in entries {
        if is_too_wide(*entry, outputs) {
            return true;
        }
    }
    false
}

fn has_wrong_entries(entries: &[u64], inputs: u64, outputs: u64) -> bool
    requires inputs { inputs ≤ 8 }
    requires outputs { outputs ≤ 64 }
    ensures { result ≡ has_wrong_entries_of inputs outputs entries.now }
{
    if entries.len() != 1 << inputs {
        return true;
    }
    has_wide_entry(entries, outputs)
}

// Whether a table may not have so many elements.
fn is_too_large(inputs: u64, outputs: u64) -> bool
    ensures { result ≡ (nat_lt 8 inputs || nat_lt 64 outputs) }
{
    inputs > 8 || outputs > 64
}

fn is_bad_table(grid: &Grid) -> bool
    ensures { result ≡ table_is_bad grid.now }
{
    let inputs = all_elements(grid.inputs.as_slice());
    let outputs = all_elements(grid.outputs.as_slice());
    if is_too_large(inputs, outputs) {
        return true;
    }
    has_wrong_entries(grid.entries.as_slice(), inputs, outputs)
}

// Whether an entry is none of the inputs, of which there may be more than the greatest number.
fn is_outside(entry: u64, inputs: u64) -> bool
    ensures { (count : ℕ) → inputs ≡ min count (2 ^ 64 - 1) → result ≡ is_no_input count entry }
{
    entry == 0 || entry > inputs
}

fn has_outside(entries: &[u64], inputs: u64) -> bool
    ensures { (count : ℕ) → inputs ≡ min count (2 ^ 64 - 1) → result ≡ list_any (is_no_input count) entries.now }
{
    for entry in entries {
        if is_outside(*entry, inputs) {
            return true;
        }
    }
    false
}

fn is_bad_permutation(grid: &Grid) -> bool
    ensures { result ≡ permutation_is_bad grid.now }
{
    let inputs = all_elements(grid.inputs.as_slice());
    let outputs = all_elements(grid.outputs.as_slice());
    let entries = grid.entries.as_slice();
    if entries.len() as u64 != outputs {
        return true;
    }
    has_outside(entries, inputs)
}

fn check_table(grid: &Grid) -> Option<Fault>
    ensures { result ≡ table_fault grid.now }
{
    if is_bad_table(grid) {
        Some(Fault {
            kind: FaultKind::BadTable,
            place: grid.name.place,
        })
    } else {
        None
    }
}

fn check_permutation(grid: &Grid) -> Option<Fault>
    ensures { result ≡ permutation_fault grid.now }
{
    if is_bad_permutation(grid) {
        Some(Fault {
            kind: FaultKind::BadPerm,
            place: grid.name.place,
        })
    } else {
        None
    }
}

fn check_grid(definition: &Def) -> Option<Fault>
    ensures { result ≡ grid_fault_in definition.now }
{
    match definition {
        Def::Node(_) => None,
        Def::Table(grid) => check_table(grid),
        Def::Perm(grid) => check_permutation(grid),
    }
}

/// The first table or permutation that is bad.
pub fn bad_grid(file: &File) -> Option<Fault>
    ensures { result ≡ grid_fault file.now.defs }
{
    let mut fault = None;
    for definition in file.defs.as_slice() {
        fault = fault.or(check_grid(definition));
    }
    fault
}
