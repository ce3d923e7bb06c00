//! Reads a month file from standard input, and writes its statement, or its refusal, to standard output.
#![tactic(auto)]

use statement::{NoStatement, refusal_row, settle_file};
use std::io::{Read, Write};
use std::process::ExitCode;

/// Prints the statement (status 0) or the refusal (status 1). Any other error goes to standard error, with status 1 too.
fn run(rt: &HostRuntime) -> anyhow::Result<ExitCode> {
    let mut file = Vec::new(rt.alloc());
    rt.stdin().read_to_end(&mut file)?;
    match settle_file(rt.alloc(), file.as_slice()) {
        Ok(statement) => {
            rt.stdout().write_all(statement.as_slice())?;
            Ok(ExitCode::SUCCESS)
        }
        Err(NoStatement::Refused(told)) => {
            rt.stdout().write_all(refusal_row(told).written())?;
            Ok(ExitCode::FAILURE)
        }
        // A refusal is an output; any other error is handed on.
        Err(error) => Err(error.into()),
    }
}

fn main(rt: HostRuntime) -> anyhow::Result<ExitCode> {
    run(&rt)
}
