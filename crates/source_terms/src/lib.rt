//! The terms of a source and its core, and the laws that both have the source's plain meaning.
//!
//! No function here computes anything. Each has an empty body and a contract that is a law about the definitions of `specs/`.
#![tactic(auto)]

mod laws;

pub use laws::{core_keeps_values, known_terms, meanings_agree, terms_have_the_meaning};
