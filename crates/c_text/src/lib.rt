//! The text of a file of the C subset, and its writing to a sink.
#![tactic(auto)]

mod call;
mod expression;
mod file;
mod gadget;
mod statement;

pub use file::write_c;
