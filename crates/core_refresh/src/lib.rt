//! Cores with refreshes: a refresh of the left operand just before each product of a set.
#![tactic(auto)]

mod copied;
mod laws;
mod refreshes;

pub use laws::{refreshed_core_size, runs_the_same, set_is_read_off};
pub use refreshes::refreshed;
