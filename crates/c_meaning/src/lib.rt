//! The reader of the C subset, and the machine that runs what it reads.
#![tactic(auto)]

mod laws;
mod places;
mod read;

pub use c_machine::{RunFault, run_c};
pub use data_text::{RunValues, ValueFault, read_run};
pub use laws::{file_or_fault, one_file};
pub use read::{CFault, read_c};
