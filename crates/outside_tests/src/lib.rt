//! The outside made to fail, call by call: what no clause can say of it, as that the calls before and after a fault succeed.
#![tactic(auto)]

#[cfg(test)]
mod objects;
