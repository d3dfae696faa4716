//! Terms as elements of plans: a builder of circuits that a plan is run over, and the core of what the plan makes.
#![tactic(auto)]

mod laws;
mod operators;
mod running;
mod terms;

pub use laws::plan_core_is_the_sources;
pub use running::{core_of_plan, terms_of_plan};
pub use terms::Terms;
