//! Runs month files and scripts of calls through the libraries, and compares each output byte by byte with the one expected.
//! Standard input names them, one to a line: NAME for NAME.month, with its output in NAME.statement, or NAME.script, with its
//! answers in NAME.answers.
#![tactic(auto)]

mod recorder;

use anyhow::ensure;
use recorder::Recorder;
use scripts::run_script;
use statement::{NoStatement, settle_file};
use std::fs;

/// How many files were run, and how many of them came out as expected.
#[derive(Clone, Copy, PartialEq, Eq, Debug, Default)]
struct Tally {
    run: u64,
    expected: u64,
}

impl Tally {
    fn with(self, agrees: bool) -> Tally {
        Tally {
            run: self.run.saturating_add(1),
            expected: self.expected.saturating_add(u64::from(agrees)),
        }
    }
}

/// What a file came to: how it ended, in a word, and its output.
#[derive(Drop)]
struct Outcome {
    ended: &'static str,
    output: Vec<u8>,
}

fn settled(rt: &HostRuntime, name: &str) -> anyhow::Result<Outcome> {
    let file = fs::read(rt, format!(in rt.alloc(); "{name}.month")?)?;
    match settle_file(rt.alloc(), file.as_slice()) {
        Ok(output) => Ok(Outcome {
            ended: "settled",
            output,
        }),
        Err(refusal @ NoStatement::Refused(_)) => Ok(Outcome {
            ended: "refused",
            output: format!(in rt.alloc(); "{refusal}")?.into_bytes(),
        }),
        // A refusal is an output; any other error is handed on.
        Err(error) => Err(error.into()),
    }
}

fn answered(rt: &HostRuntime, name: &str) -> anyhow::Result<Outcome> {
    let script = fs::read_to_string(rt, format!(in rt.alloc(); "{name}.script")?)?;
    let recorder = Recorder::new(rt.alloc());
    run_script(&recorder, rt.alloc(), script.as_str())?;
    Ok(Outcome {
        ended: "answered",
        output: recorder.into_bytes(),
    })
}

/// Runs the file that a line names, and tells whether its output is the one expected.
fn run_file(rt: &HostRuntime, line: &str) -> anyhow::Result<bool> {
    let (outcome, expected) = match line.strip_suffix(".script") {
        Some(name) => (
            answered(rt, name)?,
            format!(in rt.alloc(); "{name}.answers")?,
        ),
        None => (
            settled(rt, line)?,
            format!(in rt.alloc(); "{line}.statement")?,
        ),
    };
    let agrees = outcome.output == fs::read(rt, expected)?;
    let verdict = if agrees { "as expected" } else { "DIFFERS" };
    let ended = outcome.ended;
    let bytes = outcome.output.len();
    println!(rt; "{line}: {ended}, {bytes} bytes, {verdict}")?;
    Ok(agrees)
}

fn run(rt: &HostRuntime) -> anyhow::Result<()> {
    let mut tally = Tally::default();
    for line in rt.lines(rt.alloc()) {
        let name = line?;
        tally = tally.with(run_file(rt, name.as_str())?);
    }
    let Tally { run, expected } = tally;
    println!(rt; "{run} files, {expected} as expected")?;
    ensure!(expected == run, "some outputs differ");
    Ok(())
}

fn main(rt: HostRuntime) -> anyhow::Result<()> {
    run(&rt)
}
