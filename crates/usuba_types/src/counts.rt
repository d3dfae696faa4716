ghost use Rattle.std.specs.Prelude.{◌≡◌, ◌≤◌, ◌++◌};
ghost use Rattle.usuba_model.specs.Names.{declared_in};
ghost use Rattle.usuba_model.specs.Shapes.{all_elements};
ghost use Rattle.usuba_model.specs.Unrolled.{declarations};
ghost use Rattle.usuba_model.specs.Walk.{most_operations, signature};

use usuba_cells::count_elements;
use usuba_trees::{Decl, Def, Grid, Node};

/// How many elements a definition takes and gives.
#[derive(Clone, Copy, Drop)]
pub struct Counts {
    pub inputs: u32,
    pub outputs: u32,
}

/// How many elements declared variables have together.
pub fn count(declarations: &[Decl]) -> u32
    requires { all_elements declarations.now ≤ most_operations }
    ensures { result ≡ all_elements declarations.now }
{
    match count_elements(declarations) {
        Some(count) => count,
        None => unreachable!(),
    }
}

fn counts_of_node(node: &Node) -> Counts
    requires { all_elements (declarations node.now) ≤ most_operations }
    ensures { result ≡ record { inputs = all_elements node.now.inputs; outputs = all_elements node.now.outputs } }
{
    Counts {
        inputs: count(node.inputs.as_slice()),
        outputs: count(node.outputs.as_slice()),
    }
}

fn counts_of_grid(grid: &Grid) -> Counts
    requires { all_elements (grid.now.inputs ++ grid.now.outputs) ≤ most_operations }
    ensures { result ≡ record { inputs = all_elements grid.now.inputs; outputs = all_elements grid.now.outputs } }
{
    Counts {
        inputs: count(grid.inputs.as_slice()),
        outputs: count(grid.outputs.as_slice()),
    }
}

/// How many elements a definition takes and gives.
pub fn counts_of(definition: &Def) -> Counts
    requires { all_elements (declared_in definition.now) ≤ most_operations }
    ensures { result ≡ record { inputs = (signature definition.now).inputs; outputs = (signature definition.now).outputs } }
{
    match definition {
        Def::Node(node) => counts_of_node(node),
        Def::Table(grid) => counts_of_grid(grid),
        Def::Perm(grid) => counts_of_grid(grid),
    }
}
