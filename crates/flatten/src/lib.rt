//! From a judged source to its core.
#![tactic(auto)]

mod fault;
mod source;

pub use fault::FlatFault;
pub use source::core_of;
