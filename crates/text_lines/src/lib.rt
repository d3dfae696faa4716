//! Texts of lines that end in LF, of words parted by one blank, and of decimal numbers without leading zeros.
#![tactic(auto)]

mod cutting;
mod laws;
mod lines;
mod number;
mod words;

pub use cutting::cut;
pub use laws::{lines_read_back, numbers_read_back};
pub use lines::Lines;
pub use number::{is_number, number_below, number_value};
pub use words::{Words, are_numbers, is_word};
