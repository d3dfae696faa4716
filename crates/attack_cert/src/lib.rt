//! Attacks on a circuit, from a leak to its derivation, its probes and its text.
#![tactic(auto)]

mod laws;
mod leak;
mod levels;
mod numbers;
mod reached;

pub use attack_model::{Attack, Derivation, Listing, MAX_PROBES, Probe, Side, Step};
pub use attack_probes::{holds, unfold, unfolding_is_attack};
pub use attack_text::{CertFault, read_attack, read_is_written, write_attack, written_is_read};
pub use laws::{derivations_hold, derived_attacks_hold, renaming_keeps_derivations};
pub use leak::derive;
