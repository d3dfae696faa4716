//! The core: a circuit of equations over registers, the builder that makes one of terms, its text and its plain run.
#![tactic(auto)]

mod builder;
mod circuit;
mod finish;
mod limit;
mod run;
mod text;
mod words;

pub use builder::{CoreBuilder, Turn};
pub use circuit::{Core, Gate, Reg};
pub use finish::CloseFault;
pub use limit::{MAX_COLUMNS, MAX_TERMS, MAX_WEIGHT, REFRESH_NUMBERS, limits};
pub use run::run_plain;
pub use text::write_core;
pub use words::{all_ones, constant_word, rotate_left, shift_left, shift_right, word_bits};
