//! The grammar of the C subset as a table, and the derivation of the tokens of a file by it.
#![tactic(auto)]

mod class;
mod classes;
mod read;
mod rule;
mod table;

pub use read::{GrammarFault, derived_or_fault, steps_of};
