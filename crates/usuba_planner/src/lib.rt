//! The plans of the definitions that the entry of a judged file reaches.
#![tactic(auto)]

mod counts;
mod file;
mod marks;
mod node;

pub use file::plan_file;
