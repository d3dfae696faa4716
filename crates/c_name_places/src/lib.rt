//! Where the names of a file of the C subset stand: definitions and laws, no code.
#![tactic(auto)]

mod laws;

pub use laws::{bad_or_right, names_have_places};
