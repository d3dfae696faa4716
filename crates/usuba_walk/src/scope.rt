use crate::definitions::Definitions;
use usuba_cells::Variables;

/// What stands around the items of a node: the width, the earlier definitions and the declared variables.
#[derive(Drop)]
pub struct Scope<'a> {
    pub width: u32,
    pub definitions: &'a Definitions<'a>,
    pub variables: Variables<'a>,
}
