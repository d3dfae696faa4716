//! The meaning of sources: definitions that judging, flattening and evaluation share, and the laws about them.
//!
//! No function here computes anything. Each has an empty body and a contract that is a law about the definitions of `specs/`.
#![tactic(auto)]

mod fault;
mod judging;

pub use fault::{Fault, FaultKind};
pub use judging::{judged_has_outcome, judged_or_faulty};
