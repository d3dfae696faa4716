//! That the core of a source is a core: its equations read earlier registers, and their numbers fit the width.
//!
//! No function here computes anything. Its contract is a law about the definitions of `source_terms`.
#![tactic(auto)]

mod laws;

pub use laws::source_cores_are_cores;
