//! The machine of the C subset: what a file's masked function does with shares of its inputs and a list of random
//! words, for every count of shares. A subset of ISO/IEC 9899:1999, with words of 64 bits.
#![tactic(auto)]

mod call;
mod expression;
mod gadgets;
mod memory;
mod run;
mod scope;
mod statement;
mod stop;

pub use run::run_c;
pub use stop::{RunFault, Trap};
