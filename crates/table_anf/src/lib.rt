//! Tables as circuits: the algebraic normal form of a table, and the terms that it gives.
#![tactic(auto)]

mod emission;
mod laws;
mod normal_form;

pub use emission::emit;
pub use laws::{accepted_tables_fit, known_tables, polynomial_is_table, terms_are_look_ups};
pub use normal_form::{NormalForm, anf};
