//! What the machine of the C subset does with the masked form of a core: the masked run of the core, on every number of shares.
//!
//! There is no code here. A law is a function with an empty body, whose contract is the law.
#![tactic(auto)]

mod laws;

pub use laws::{machine_finds_words_short, machine_gives_masked_run};
