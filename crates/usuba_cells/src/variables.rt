ghost use Rattle.std.specs.Prelude.{◌≡◌, ◌+◌, ◌++◌, ◌≤◌, ◌||◌, map, false, OnOk, IfOk};
ghost use Rattle.std.specs.List.{list_any};
ghost use Rattle.usuba_model.specs.Cells.{spot_read, divides_by_zero, meets_too_big, pick_outside};
ghost use Rattle.usuba_model.specs.Shapes.{product as all_of, all_elements};
ghost use Rattle.usuba_model.specs.Unrolled.{declarations};
ghost use Rattle.usuba_model.specs.Walk.{most_operations};
ghost use Rattle.usuba_cells.specs.Counters.{around};
ghost use Rattle.usuba_model.specs.Numbers.{cell_number};
ghost use Rattle.usuba_cells.specs.State.Brackets.{brackets, picked_numbers};
ghost use Rattle.usuba_cells.specs.State.Copies.{raised};

use crate::brackets::{SpotRead, read_brackets};
use crate::computing::Counter;
use crate::counting::product;
use crate::picking::append_elements;
use crate::places::{Places, Variable, declare};
use std::alloc::{AllocError, Global};
use std::collections::HashMap;
use std::marker::Model;
use usuba_trees::{Node, Pick, Spot};

// Reads brackets of a variable.
fn read_variable(
    variable: &Variable,
    picks: &[Pick],
    counters: &[Counter<'_>],
    cells: &mut Vec<u32>,
) -> Result<SpotRead, AllocError>
    requires { variable.now.first + all_of variable.now.sizes ≤ most_operations }
    ensures cells { OnOk result (cells.new.items
        ≡ cells.old.items ++ raised variable.now.first (picked_numbers variable.now.sizes (brackets counters.now picks.now))) }
    ensures divided { IfOk result (λ read. read.divided_by_zero ≡ list_any divides_by_zero (brackets counters.now picks.now)) }
    ensures out { IfOk result (λ read. read.index_out
        ≡ (list_any meets_too_big (brackets counters.now picks.now) || pick_outside variable.now.sizes (brackets counters.now picks.now))) }
{
    let sizes = variable.sizes.as_slice();
    let read = read_brackets(sizes, picks, counters);
    if read.divided_by_zero || read.index_out || product(sizes) == 0 {
        return Ok(read);
    }
    append_elements(cells, variable.first, sizes, picks, counters)?;
    Ok(read)
}

// Reads brackets of a name that is not declared.
fn read_undeclared(picks: &[Pick], counters: &[Counter<'_>]) -> SpotRead
    ensures divided { result.divided_by_zero ≡ list_any divides_by_zero (brackets counters.now picks.now) }
    ensures out { result.index_out ≡ false }
{
    SpotRead {
        divided_by_zero: read_brackets(&[], picks, counters).divided_by_zero,
        index_out: false,
    }
}

/// The declared variables of a node, found by their names.
#[derive(Drop)]
pub struct Variables<'a> {
    node: &'a Node,
    places: Places<'a>,
}

impl<'a> Model for Variables<'a> {
    ghost use Rattle.std.specs.Prelude.{List};
    ghost use Rattle.usuba_trees.specs.declared.Decl.{Decl};
    ghost use Rattle.usuba_model.specs.Unrolled.{declarations};
    ghost use Rattle.usuba_cells.specs.State.Places.{place_at, IsNumbered};

    // the node's declarations: inputs, outputs, locals
    ghost Value = { List Decl };

    ghost view = { λ variables. declarations variables.node.now };

    ghost invariant = { λ variables. IsNumbered (declarations variables.node.now) (place_at variables.places) };
}

impl<'a> Variables<'a> {
    pub fn new(alloc: Global, node: &'a Node) -> Result<Variables<'a>, AllocError>
        requires { all_elements (declarations node.now) ≤ most_operations }
        ensures { IfOk result (λ variables. variables ≡ declarations node.now) }
    {
        let mut places = HashMap::new(alloc);
        let outputs = declare(alloc, &mut places, 0, node.inputs.as_slice())?;
        let locals = declare(alloc, &mut places, outputs, node.outputs.as_slice())?;
        declare(alloc, &mut places, locals, node.locals.as_slice())?;
        Ok(Variables { node, places })
    }

    /// Reads a spot where the counters of the loops around have these values, the innermost last: appends the numbers of the
    /// cells that it picks. Brackets at fault pick none.
    pub fn read_spot(
        &self,
        spot: &Spot,
        counters: &[Counter<'_>],
        cells: &mut Vec<u32>,
    ) -> Result<SpotRead, AllocError>
        ensures cells { OnOk result (cells.new.items
            ≡ cells.old.items ++ map (cell_number self.now) (spot_read self.now (around counters.now) spot.now).cells) }
        ensures divided { IfOk result (λ read. read.divided_by_zero ≡ (spot_read self.now (around counters.now) spot.now).divided_by_zero) }
        ensures out { IfOk result (λ read. read.index_out ≡ (spot_read self.now (around counters.now) spot.now).index_out) }
    {
        let picks = spot.picks.as_slice();
        match self.places.get(spot.name.text.as_str()) {
            Some(variable) => read_variable(variable, picks, counters, cells),
            None => Ok(read_undeclared(picks, counters)),
        }
    }
}
