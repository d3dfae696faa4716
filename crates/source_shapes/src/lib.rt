//! What holds of the types in a file that bytes spell: widths of 1 to 64, and at least one element for each variable.
//!
//! No function here computes anything. Each has an empty body and a contract that is a law about the definitions of `specs/`.
#![tactic(auto)]

mod laws;

pub use laws::{judged_takes_and_gives, spelled_is_shaped};
