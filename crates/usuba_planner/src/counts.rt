ghost use Rattle.std.specs.Prelude.{◌≡◌, ◌≤◌, ◌∷◌, ◌++◌, OnOk};
ghost use Rattle.usuba_model.specs.Names.{declared_in};
ghost use Rattle.usuba_model.specs.Shapes.{all_elements};
ghost use Rattle.usuba_model.specs.Unrolled.{declarations};
ghost use Rattle.usuba_model.specs.Walk.{most_operations, signature};

use std::alloc::AllocError;
use usuba_cells::count_elements;
use usuba_trees::{Decl, Def, Grid, Node};
use usuba_walk::Definitions;

/// How many elements declared variables have together.
pub fn count(declarations: &[Decl]) -> u32
    requires { all_elements declarations.now ≤ most_operations }
    ensures { result ≡ all_elements declarations.now }
{
    match count_elements(declarations) {
        Some(count) => count,
        None => unreachable!(),
    }
}

fn add_node<'a>(definitions: &mut Definitions<'a>, node: &'a Node) -> Result<(), AllocError>
    requires { all_elements (declarations node.now) ≤ most_operations }
    ensures { OnOk result (definitions.new ≡ record {
      name = node.now.name.text;
      inputs = all_elements node.now.inputs;
      outputs = all_elements node.now.outputs;
    } ∷ definitions.old) }
{
    let inputs = count(node.inputs.as_slice());
    let outputs = count(node.outputs.as_slice());
    definitions.add(node.name.text.as_str(), inputs, outputs)
}

fn add_grid<'a>(definitions: &mut Definitions<'a>, grid: &'a Grid) -> Result<(), AllocError>
    requires { all_elements (grid.now.inputs ++ grid.now.outputs) ≤ most_operations }
    ensures { OnOk result (definitions.new ≡ record {
      name = grid.now.name.text;
      inputs = all_elements grid.now.inputs;
      outputs = all_elements grid.now.outputs;
    } ∷ definitions.old) }
{
    let inputs = count(grid.inputs.as_slice());
    let outputs = count(grid.outputs.as_slice());
    definitions.add(grid.name.text.as_str(), inputs, outputs)
}

/// Adds what calls see of a definition.
pub fn add<'a>(definitions: &mut Definitions<'a>, definition: &'a Def) -> Result<(), AllocError>
    requires { all_elements (declared_in definition.now) ≤ most_operations }
    ensures { OnOk result (definitions.new ≡ signature definition.now ∷ definitions.old) }
{
    match definition {
        Def::Node(node) => add_node(definitions, node),
        Def::Table(grid) | Def::Perm(grid) => add_grid(definitions, grid),
    }
}
