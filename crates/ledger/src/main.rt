//! Drives a settlement by a script of calls on standard input, and answers them on standard output.
#![tactic(auto)]

use scripts::{Stop, run_script};
use std::io;
use std::process::ExitCode;

fn run(rt: &HostRuntime) -> Result<(), Stop> {
    let text = io::read_to_string(rt.alloc(), rt.stdin())?;
    run_script(rt, rt.alloc(), text.as_str())
}

fn main(rt: HostRuntime) -> ExitCode {
    match run(&rt) {
        Ok(()) => ExitCode::SUCCESS,
        Err(stop) => {
            let _ = eprintln!(rt; "{stop}");
            ExitCode::FAILURE
        }
    }
}
