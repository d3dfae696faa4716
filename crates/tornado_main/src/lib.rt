//! The program: a command on files, from the bytes of the files to the bytes of its answer.
#![tactic(auto)]

mod answer;
mod commands;
mod core_texts;
mod cores;
mod fetch;
mod laws;
mod message;
mod process;
mod program;
mod refusal;
mod sources;
mod status;
mod words;

pub use laws::{
    file_has_attack_or_fault, file_has_core_or_fault, file_has_inputs_or_fault,
    file_has_run_data_or_fault, file_is_c_or_fault, orders_have_outcomes, outcomes_agree,
};
pub use process::run;
pub use program::tornado;
pub use status::Status;
