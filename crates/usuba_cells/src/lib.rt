//! Indexes computed, and the cells that spots pick, by their numbers.
//!
//! The cells of a node are numbered over its declared variables in order: inputs, outputs, locals, and the elements of each in
//! order.
#![tactic(auto)]

mod brackets;
mod computing;
mod counting;
mod picking;
mod places;
mod variables;

pub use brackets::SpotRead;
pub use computing::{Computed, Counter, compute};
pub use counting::count_elements;
pub use variables::Variables;
