//! Lists of columns, as texts have them: the words of the columns of a row, read back.
#![tactic(auto)]

mod laws;
mod named;
mod row;

pub use laws::{rows_are_named, rows_read_back};
pub use named::are_columns;
pub use row::read_row;
