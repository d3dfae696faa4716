//! The C subset: which tokens are a file.
#![tactic(auto)]

mod laws;

pub use laws::{derived_are_files, files_are_derived, one_file};
