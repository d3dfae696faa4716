//! The text of attacks on a circuit, written and read.
#![tactic(auto)]

mod form;
mod laws;
mod line;
mod read;
mod write;

pub use laws::narrow_texts_are_whole;
pub use read::{CertFault, read_attack, read_is_written, written_is_read};
pub use write::{write_attack, write_attack_among};
