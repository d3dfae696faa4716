//! Sources generated from a seed and a size, and the report on one that was judged.
#![tactic(auto)]

mod draft;
mod known;
mod operands;
mod report;
mod source;

pub use known::known_cases;
pub use operands::Operands;
pub use report::{Report, write_report};
pub use source::{MAX_SIZE, limits, source_of, write_source};
