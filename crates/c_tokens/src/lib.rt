//! From the bytes of a C file to its first lines and its tokens with their places.
#![tactic(auto)]

mod head;
mod number;
mod opening;
mod token;
mod tokens;
mod word;

pub use opening::{Opening, opening_of};
pub use token::{Ending, Keyword, Sign, Token, TokenKind, Tokens};
pub use tokens::{every_text_spells, one_spelling, place_after, tokens_of};
