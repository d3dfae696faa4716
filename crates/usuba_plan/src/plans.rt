use usuba_code::Table;

/// What the definition at a place among those of a file is resolved to.
#[derive(Drop)]
pub enum Plan {
    Node(NodePlan),
    /// A table has its entries in the file; here is how many elements it gives.
    Table(u32),
    /// A permutation has its entries in the file.
    Permutation,
    /// A definition that nothing calls needs no plan.
    Absent,
}

/// The equation instances of a node over numbered cells, and an order in which each is ready. The cells of the inputs come first,
/// then those of the outputs.
#[derive(Drop)]
pub struct NodePlan {
    pub cells: u32,
    pub inputs: u32,
    pub outputs: u32,
    pub table: Table,
    pub order: Vec<u32>,
}
