ghost use Rattle.std.specs.Prelude.{◌≡◌, ◌++◌};
ghost use Rattle.usuba_model.specs.Names.{declared_in as declared_in_definition, name_of as name_of_definition};

use usuba_trees::{Decl, Def, Grid, Word};

/// The declarations of a definition.
#[derive(Clone, Copy)]
pub struct Declared<'a> {
    pub inputs: &'a [Decl],
    pub outputs: &'a [Decl],
    /// A table or a permutation has none.
    pub locals: &'a [Decl],
}

pub fn name_of(definition: &Def) -> &Word
    ensures { result.now ≡ name_of_definition definition.now }
{
    match definition {
        Def::Node(node) => &node.name,
        Def::Table(grid) => &grid.name,
        Def::Perm(grid) => &grid.name,
    }
}

fn declared_in_grid(grid: &Grid) -> Declared<'_>
    ensures { grid.now.inputs ++ grid.now.outputs ≡ result.inputs.now ++ result.outputs.now ++ result.locals.now }
{
    Declared {
        inputs: grid.inputs.as_slice(),
        outputs: grid.outputs.as_slice(),
        locals: &[],
    }
}

pub fn declared_in(definition: &Def) -> Declared<'_>
    ensures { declared_in_definition definition.now ≡ result.inputs.now ++ result.outputs.now ++ result.locals.now }
{
    match definition {
        Def::Node(node) => Declared {
            inputs: node.inputs.as_slice(),
            outputs: node.outputs.as_slice(),
            locals: node.locals.as_slice(),
        },
        Def::Table(grid) => declared_in_grid(grid),
        Def::Perm(grid) => declared_in_grid(grid),
    }
}
