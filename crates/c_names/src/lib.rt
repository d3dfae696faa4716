//! The names of a file of the C subset: whether each is right where it stands.
#![tactic(auto)]

mod expression;
mod fault;
mod file;
mod gadget;
mod places;
mod scope;
mod statement;

pub use fault::NameFault;
pub use file::{check_names, none_is_bad};
pub use scope::Role;
