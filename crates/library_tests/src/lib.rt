//! Tests of library calls that no command of the program reaches, with ample memory: each compares an answer with one
//! worked by hand. Each function takes few steps that can fail, since each such step costs proof.
#![tactic(auto)]

#[cfg(test)]
mod circuits;
#[cfg(test)]
mod rows;
#[cfg(test)]
mod verdicts;
