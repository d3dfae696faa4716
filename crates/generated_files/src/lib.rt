//! What holds of generated sources: they are spelled and judged without a fault, and their cores are small.
//!
//! No function here computes anything. Each has a contract that is a law about the definitions of `specs/`.
#![tactic(auto)]

mod laws;

pub use laws::generated_is_clean;
