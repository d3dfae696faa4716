//! The tree of the tokens of a file of the C subset.
#![tactic(auto)]

mod calls;
mod expressions;
mod files;
mod first;
mod gadgets;
mod statements;

pub use files::tree_of;
