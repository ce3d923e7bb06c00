//! Works published examples of availability assessment through the library, and
//! prints each figure beside the published one.
#![tactic(auto)]

mod comparison;
mod day_examples;
mod example;
mod measure;
mod month_examples;
mod months;
mod plan;
mod published;
mod reading;
mod refusal;
mod report;
mod stretch;

use comparison::Tally;
use day_examples::DAY_EXAMPLES;
use month_examples::MONTH_EXAMPLES;
use report::{HEAD, report};
use std::io;

/// Prints every example and a last line of counts; an error where a figure differs.
fn run(rt: &(impl Print + AllocGlobal)) -> io::Result<()> {
    rt.println(HEAD)?;
    let tally = report(rt, &DAY_EXAMPLES, Tally::default())?;
    let tally = report(rt, &MONTH_EXAMPLES, tally)?;
    let Tally {
        compared,
        agreeing,
        published,
    } = tally;
    println!(rt;
        "{compared} figures compared, {agreeing} agree; {published} of them were published"
    )?;
    if agreeing < compared {
        return Err(io::Error::other("some figures differ"));
    }
    Ok(())
}

fn main(rt: HostRuntime) -> io::Result<()> {
    run(&rt)
}
