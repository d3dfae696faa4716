//! The gadgets of the C that is printed, made as trees.
#![tactic(auto)]

mod gadgets;
mod parts;
mod template;

pub use template::template_gadgets;
