//! The masked form of a core: what gadgets, calls and slots the C has in which it is masked. Definitions and laws.
#![tactic(auto)]

mod laws;

pub use laws::{
    masked_forms_are_unique, masked_forms_exist, slots_are_fewest, slots_are_unique, slots_exist,
};
