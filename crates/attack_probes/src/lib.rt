//! What a derivation unfolds to, and whether an attack holds.
#![tactic(auto)]

mod holding;
mod laws;
mod listing;

pub use holding::holds;
pub use laws::unfolding_is_attack;
pub use listing::unfold;
