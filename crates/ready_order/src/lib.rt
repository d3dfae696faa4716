//! The order of a node's equation instances over numbered cells: what is assigned twice, what is never assigned, and an
//! order in which each instance is ready in its turn.
#![tactic(auto)]

mod hint;
mod laws;
mod marks;
mod ordering;
mod scan;
mod twice;
mod unassigned;
mod uses;

pub use laws::numbered_findings;
pub use ordering::{Order, order_of};
pub use twice::first_twice;
pub use unassigned::first_unassigned;
pub use uses::Uses;
