//! The rows of the operands of a circuit's products, over columns for the bits of its inputs, products and refreshes.
#![tactic(auto)]

mod alike;
mod column;
mod core_view;
mod laws;
mod names;
mod operand;
mod rows;
mod seen;
mod shared_rows;
mod text;
mod view;
mod walk;

pub use column::{Column, ColumnKind};
pub use core_view::{narrow_view, rows_of, view_of};
pub use laws::{attacks_are_the_views, core_view_size, narrow_views_keep_attacks};
pub use operand::{Operand, Side};
pub use shared_rows::SharedRows;
pub use text::{write_columns, write_rows};
pub use view::{View, view_with};
