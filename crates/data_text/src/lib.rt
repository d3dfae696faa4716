//! The data of `eval` and of `run`, and how values are written.
#![tactic(auto)]

mod fault;
mod laws;
mod number;
mod read;
mod tokens;
mod write;

pub use fault::ValueFault;
pub use laws::{known_cases, run_or_fault, values_or_fault};
pub use read::{RunValues, read_run, read_values};
pub use write::write_values;
