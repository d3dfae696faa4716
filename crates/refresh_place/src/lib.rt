//! Repair: a set of products whose refreshes leave no attack, and of which none can be left out.
#![tactic(auto)]

mod laws;
mod repairing;

pub use laws::{attacks_on_refreshed_cores, left_out_of_view, refreshed_cores_are_refreshed};
pub use repairing::{Repaired, repair};
