//! What the text of a masked form spells: a law, no code.
#![tactic(auto)]

mod laws;

pub use laws::masked_text_spells;
