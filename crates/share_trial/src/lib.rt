//! Trials: the masked run of a core on shares that are drawn from a seed, and their text.
#![tactic(auto)]

mod drawing;
mod laws;
mod text;
mod trials;

pub use laws::{known_trials, shares_have_the_value};
pub use text::write_trial;
pub use trials::{Trial, TrialOutput, run_trial};
