/// What a column is a bit of.
#[derive(Debug, Clone, Copy, PartialEq, Eq, Hash)]
pub enum ColumnKind {
    Input,
    Product,
    Refresh,
}

/// A bit of an input, a product or a refresh. Each kind is numbered from 0 in the order of the circuit; bit 0 is the least significant.
#[derive(Debug, Clone, Copy, PartialEq, Eq, Hash)]
pub struct Column {
    pub kind: ColumnKind,
    pub number: u32,
    pub bit: u32,
}
