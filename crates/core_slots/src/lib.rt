//! Slots for the registers of a core: each equation gets the least one that no live register holds.
#![tactic(auto)]

mod ends;
mod operands;
mod slots;

pub use slots::{Slots, slots_of};
