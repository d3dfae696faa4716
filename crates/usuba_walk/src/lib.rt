//! The walk through a definition, to its first fault or to its count and the table of its instances.
#![tactic(auto)]

mod count;
mod definition;
mod definitions;
mod equation;
mod expression;
mod faults;
mod items;
mod leaves;
mod progress;
mod pushes;
mod scope;
mod spots;
mod stop;

pub use definition::{Walked, walk_definition};
pub use definitions::{Callee, Definitions};
