//! The search for an attack on the products of a circuit, and the test whether a set of columns is the leak of one.
//!
//! Both are exact: a set of columns is the leak of an attack exactly where it reaches steps whose co-operands span it, and the search goes
//! over whole spans of candidates at a time.
#![tactic(auto)]

mod affine;
mod apart;
mod bounds;
mod chains;
mod class;
mod classes;
mod cosets;
mod gathered;
mod growth;
mod images;
mod known;
mod leaving_out;
mod pieces;
mod reaches;
mod searches;
mod split;
mod tasks;

pub use leaving_out::least_left_out;
pub use searches::{Verdict, leaks, search};
