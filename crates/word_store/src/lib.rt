//! Words as elements of plans: a plan that is run over them gives the plain meaning of its definition.
#![tactic(auto)]

mod laws;
mod look_up;
mod operators;
mod shifts;
mod words;

pub use laws::plan_gives_meaning;
pub use words::Words;
