//! Judging of sources: the first fault of the ten phases, or the program with its width and its entry.
#![tactic(auto)]

mod counts;
mod faults;
mod judging;
mod laws;
mod limits;
mod passing;
mod sizes;

pub use judging::{JudgeFault, Judged, judge};
pub use laws::numbered_sizes;
pub use sizes::{CappedSize, size_of_node};
pub use usuba_model::FaultKind;
