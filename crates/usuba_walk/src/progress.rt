ghost use Rattle.std.specs.Prelude.{◌≤◌};

use usuba_code::Table;

/// How far a walk came: the count of operations, and the instances so far.
#[derive(Drop)]
pub struct Progress {
    pub count: u32,
    pub table: Table,
    /// The cells of the spot that was read last.
    pub cells: Vec<u32>,
    ghost within: { count ≤ 4194304 },
}
