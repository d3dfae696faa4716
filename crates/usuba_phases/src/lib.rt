//! The first five phases of judging a source: names that repeat, names that are unknown, the entry, the width, and
//! tables and permutations.
#![tactic(auto)]

mod definitions;
mod early;
mod entries;
mod grids;
mod names;
mod repeated;
mod scope;
mod unknown;
mod widths;

pub use early::{Early, early_fault, early_faults_come_first, passed_or_early};
pub use entries::entry_of;
pub use grids::bad_grid;
pub use repeated::repeated_name;
pub use unknown::unknown_name;
pub use widths::{missing_width, mixed_width, width_of};
