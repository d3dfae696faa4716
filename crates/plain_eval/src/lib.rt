//! What a judged source makes of words.
#![tactic(auto)]

mod source;

pub use data_text::{ValueFault, read_values};
pub use source::eval;
