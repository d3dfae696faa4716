//! The least selection of listed groups of rows whose rows, with rows of one's own, span a given row.
#![tactic(auto)]

mod groups;
mod laws;
mod words;

pub use groups::Groups;
pub use laws::{least_selections, picked_numbers};
