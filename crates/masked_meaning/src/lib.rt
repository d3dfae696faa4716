//! What masked code computes: for every count of shares, the values of the shares that the machine answers for the
//! masked form of a refreshed core are the plain run of the core, and the plain meaning of its source.
//!
//! There is no code here. A law is a function with an empty body, whose contract is the law.
#![tactic(auto)]

mod laws;

pub use laws::{
    lanes_are_runs, masked_code_computes_the_core, masked_code_computes_the_source,
    masked_lanes_compute_the_source,
};
