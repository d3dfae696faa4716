//! Right sides as code over numbered cells, and the table of a node's equation instances.
#![tactic(auto)]

mod laws;
mod operation;
mod table;

pub use laws::code_gives_value;
pub use operation::Operation;
pub use table::Table;
