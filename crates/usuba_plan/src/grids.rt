ghost use Rattle.std.specs.Prelude.{◌≡◌};
ghost use Rattle.usuba_plan.specs.Made.{entries_of};

use usuba_trees::Def;

/// The entries of a table or a permutation; a node has none.
pub fn entries(definition: &Def) -> &[u64]
    ensures { result.now ≡ entries_of definition.now }
{
    match definition {
        Def::Node(_) => &[],
        Def::Table(grid) => grid.entries.as_slice(),
        Def::Perm(grid) => grid.entries.as_slice(),
    }
}
