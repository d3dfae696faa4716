//! Numbers and words drawn from a seed, by a linear congruence modulo 65,537.
#![tactic(auto)]

mod draws;
mod laws;

pub use draws::{Draws, MODULUS};
pub use laws::{known_cases, words_fit};
