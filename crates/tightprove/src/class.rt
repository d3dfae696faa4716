use linear_view::SharedRows;
use tor_edge::List;

/// Operands that span the same sets: rows that span them, and the classes of the operands that stand beside them.
#[derive(Drop)]
pub(crate) struct Class {
    pub(crate) rows: SharedRows,
    pub(crate) partners: List<usize>,
}
