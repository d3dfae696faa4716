//! Gadgets on sharings, for every number of shares and four sizes of words, and the masked run of a core.
#![tactic(auto)]

mod equation;
mod gadgets;
mod known;
mod laws;
mod pair_loop;
mod register;
mod run;
mod sharing;
mod shifts;

pub use gadgets::{mask, mul, not, refresh, xor};
pub use known::known_cases;
pub use laws::{outputs_are_sharings, values_of_masked_run};
pub use register::Register;
pub use run::{MaskFault, MaskedRun, run_masked};
pub use sharing::{MAX_SHARES, Sharing, limits};
