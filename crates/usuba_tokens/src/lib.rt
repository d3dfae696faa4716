//! From the bytes of a source file to its tokens with their places.
#![tactic(auto)]

mod head;
mod number;
mod token;
mod tokens;
mod word;

pub use token::{Base, Ending, Keyword, Sign, Token, TokenKind, Tokens, TypeWord};
pub use tokens::{
    broken_texts_have_a_cause, every_text_spells, gaps_hold_no_token, one_spelling,
    tokens_are_longest, tokens_of,
};
