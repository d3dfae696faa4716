//! Plans: what a judged definition is resolved to, and one interpreter that runs them over elements of any kind.
#![tactic(auto)]

mod cells;
mod grids;
mod laws;
mod operators;
mod plans;
mod running;
mod stack;

pub use laws::{plan_gives_outcome, plans_fit};
pub use operators::Elements;
pub use plans::{NodePlan, Plan};
pub use running::run;
