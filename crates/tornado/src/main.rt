//! The program `tornado`, on the files and streams of the system.
#![tactic(auto)]

use std::env;
use std::process::ExitCode;
use tor_edge::{OsFiles, OsSink};
use tornado_main::run;

fn main(rt: HostRuntime) -> ExitCode {
    let mut files = OsFiles::new(&rt);
    let mut out = OsSink::new(rt.stdout());
    let mut err = OsSink::new(rt.stderr());
    run(rt.alloc(), env::args(&rt), &mut files, &mut out, &mut err)
}
