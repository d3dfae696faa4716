ghost use Rattle.std.specs.Prelude.{◌≡◌, ℕ, ◌<◌, ◌≤◌, ◌∷◌, ◌++◌, [], length, None, IfOk, OnOk, ◌^◌};
ghost use Rattle.usuba_model.specs.Faults.{either, first_of};
ghost use Rattle.usuba_model.specs.Judging.{name_at as name_at_number, later_fault as later_fault_of};
ghost use Rattle.usuba_model.specs.Entries.{name_place};
ghost use Rattle.usuba_model.specs.Names.{declared_in, name_of as name_of_definition, repeated_names, unknown_names};
ghost use Rattle.usuba_model.specs.Numbers.{callee_number};
ghost use Rattle.usuba_model.specs.Operations.{Size, size_fault as size_fault_of};
ghost use Rattle.usuba_model.specs.Shapes.{all_elements};
ghost use Rattle.usuba_model.specs.Walk.{most_operations, signature, definition_steps, walk_fault, count_of};
ghost use Rattle.usuba_walk.specs.Walking.{coded_definition};
ghost use Rattle.usuba_types.specs.Sizes.{capped, capped_at};
ghost use Rattle.usuba_types.specs.State.Passing.{sized_numbered, kept_after_numbered, IsStep};

use crate::counts::counts_of;
use crate::faults::{FirstFaults, first, keep_first};
use crate::limits::{size_fault, size_of_permutation, size_of_table};
use crate::sizes::{CappedSize, size_at, size_of_node};
use std::alloc::{AllocError, Global};
use usuba_code::Table;
use usuba_model::{Fault, FaultKind};
use usuba_trees::{Def, File, Word};
use usuba_walk::{Definitions, Walked, walk_definition};

/// What is known of the definitions that were looked at: what calls see of them, their sizes in the order of the file, and
/// the first faults.
#[derive(Drop)]
pub struct Pass<'a> {
    pub definitions: Definitions<'a>,
    pub sizes: Vec<CappedSize>,
    pub kept: FirstFaults,
}

fn name_of(definition: &Def) -> &Word
    ensures { result.now ≡ name_of_definition definition.now }
{
    match definition {
        Def::Node(node) => &node.name,
        Def::Table(grid) => &grid.name,
        Def::Perm(grid) => &grid.name,
    }
}

// The size of a definition of so many operations of its own.
fn size_of(definition: &Def, table: &Table, count: u32, known: &[CappedSize]) -> CappedSize
    requires { all_elements (declared_in definition.now) ≤ most_operations }
    ensures { result ≡ sized_numbered known.now definition.now count table.now.done }
{
    let counts = counts_of(definition);
    match definition {
        Def::Node(_) => size_of_node(table, count, known),
        Def::Table(_) => size_of_table(counts.inputs, counts.outputs),
        Def::Perm(_) => size_of_permutation(counts.outputs),
    }
}

// Keeps what is known of a definition that was walked without a fault.
fn keep<'a>(
    alloc: Global,
    pass: &mut Pass<'a>,
    definition: &'a Def,
    count: u32,
    table: &Table,
) -> Result<(), AllocError>
    requires instances { length table.now.done < 2 ^ 32 }
    requires few { all_elements (declared_in definition.now) ≤ most_operations }
    requires table { table.now.done ≡ coded_definition pass.old.definitions definition.now }
    ensures definitions { OnOk result (pass.new.definitions ≡ signature definition.now ∷ pass.old.definitions) }
    ensures sizes { OnOk result (pass.new.sizes.items ≡ pass.old.sizes.items ++ sized_numbered pass.old.sizes.items definition.now count table.now.done ∷ []) }
    ensures kept { OnOk result (pass.new.kept ≡ kept_after_numbered pass.old.kept definition.now table.now.done) }
{
    let size = size_of(definition, table, count, pass.sizes.as_slice());
    pass.sizes.push(size)?;
    pass.kept = keep_first(alloc, pass.kept, table, definition)?;
    let counts = counts_of(definition);
    pass.definitions.add(
        name_of(definition).text.as_str(),
        counts.inputs,
        counts.outputs,
    )
}

/// Looks at the next definition: the fault of its walk, or none where all is kept of it.
pub fn look_at<'a>(
    alloc: Global,
    pass: &mut Pass<'a>,
    width: u32,
    definition: &'a Def,
) -> Result<Option<Fault>, AllocError>
    ensures { IfOk result (IsStep width pass.old pass.new definition.now) }
{
    match walk_definition(alloc, width, &pass.definitions, definition)? {
        Walked::Fault(fault) => Ok(Some(fault)),
        Walked::Whole { count, table } => {
            keep(alloc, pass, definition, count, &table)?;
            Ok(None)
        }
    }
}

// The name of the definition at a number.
fn name_at(file: &File, entry: usize) -> &Word
    requires { entry < length file.now.defs }
    ensures text { result.now.text ≡ name_at_number file.now.defs entry }
    ensures place { result.now.place ≡ name_place file.now.defs entry }
{
    name_of(&file.defs.as_slice()[entry])
}

// The size of the definition of a name.
fn size_named(pass: &Pass<'_>, name: &str) -> CappedSize
    ensures { result ≡ capped_at pass.now.sizes.items (callee_number pass.now.definitions name.now) }
{
    let callee = pass.definitions.find(name);
    size_at(pass.sizes.as_slice(), callee.number)
}

// The first of the faults that are kept, and what is too large about an entry whose name stands at this place.
fn first_kept(kept: FirstFaults, size: Option<Fault>) -> Option<Fault>
    ensures { result ≡ either kept.twice (either kept.unassigned (either kept.cyclic size)) }
{
    first(kept.twice, first(kept.unassigned, first(kept.cyclic, size)))
}

// The first fault of the phases after the walks, where all definitions were looked at.
fn last_fault(pass: &Pass<'_>, file: &File, entry: usize) -> Option<Fault>
    requires { entry < length file.now.defs }
    ensures { (whole : Size) → capped_at pass.now.sizes.items (callee_number pass.now.definitions (name_at_number file.now.defs entry)) ≡ capped whole
        → result ≡ either pass.now.kept.twice (either pass.now.kept.unassigned (either pass.now.kept.cyclic (size_fault_of (name_place file.now.defs entry) whole))) }
{
    let name = name_at(file, entry);
    let size = size_named(pass, name.text.as_str());
    first_kept(pass.kept, size_fault(name.place, size))
}

/// The first fault of the phases from the sixth on, at a width, for an entry.
pub fn later_fault(
    alloc: Global,
    width: u32,
    file: &File,
    entry: usize,
) -> Result<Option<Fault>, AllocError>
    requires entry { entry < length file.now.defs }
    requires repeated { first_of FaultKind.DuplicateName (repeated_names [] file.now.defs) ≡ None }
    requires unknown { first_of FaultKind.UnknownName (unknown_names [] file.now.defs) ≡ None }
    ensures { IfOk result (λ found. found ≡ later_fault_of width file.now.defs entry) }
{
    let mut pass = Pass {
        definitions: Definitions::new(alloc),
        sizes: Vec::new(alloc),
        kept: FirstFaults {
            twice: None,
            unassigned: None,
            cyclic: None,
        },
    };
    for definition in file.defs.as_slice() {
        if let Some(fault) = look_at(alloc, &mut pass, width, definition)? {
            return Ok(Some(fault));
        }
    }
    Ok(last_fault(&pass, file, entry))
}
