//! The syntax of C files: from bytes to the tokens of a file of the C subset, or the place at fault.
#![tactic(auto)]

mod laws;
mod read;

pub use laws::{file_or_fault, one_place, one_source};
pub use read::{Spelled, SyntaxFault, read_tokens};
