//! What the reader of a source makes of the steps of a derivation, from the last one on: a stack of parts of the tree, and for
//! each production the action that puts the parts of its items together.
#![tactic(auto)]

mod action;
mod declarations;
mod expressions;
mod indexes;
mod items;
mod lists;
mod part;
mod tokens;

pub use action::{Action, act};
pub use part::{Mark, Numeral, Part, Parts};
