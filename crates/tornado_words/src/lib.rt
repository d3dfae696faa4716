//! The words of a command line, read with `clap`: what they ask for, or that they are no order.
#![tactic(auto)]

mod arguments;
mod command_word;
mod laws;
mod numbers;
mod order;
mod orders;
mod parsing;
mod reading;
mod values;

pub use laws::{one_order, orders_are_in_range, ordinary_words, refused_alone, words_are_given};
pub use order::{Basis, Order, WordFault};
pub use reading::order_of;
