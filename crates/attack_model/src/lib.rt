//! Attacks on a circuit: how one is derived, where it probes, and the ranges that both keep to.
#![tactic(auto)]

mod attack;
mod laws;

pub use attack::{Attack, Derivation, Listing, MAX_PROBES, Probe, Step};
pub use laws::{limits, uses_rise};
pub use linear_view::{Operand, Side};
