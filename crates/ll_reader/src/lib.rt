//! A predictive reader over a grammar that is given as a table, proved once for all grammars.
#![tactic(auto)]

mod grammar;
mod laws;
mod production;
mod reader;

pub use grammar::{Body, Frame, Item, Production, Step};
pub use laws::{steps_are_determined, text_or_fault};
pub use reader::{ReadError, read};
