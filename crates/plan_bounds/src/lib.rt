//! How many elements the plans of a judged file make at most, and that its entry can be run.
#![tactic(auto)]

mod laws;

pub use laws::{entry_makes, plans_have_room};
