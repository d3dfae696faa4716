//! The text of a core as input.
#![tactic(auto)]

mod fault;
mod line;
mod operand;
mod plain;
mod read;
mod right_side;
mod scan;

pub use fault::CoreFault;
pub use read::{core_or_fault, read_core, read_is_written, written_is_read};
