//! The printed report: a row for each figure, example by example.
use crate::comparison::Tally;
use crate::example::{Case, Check, Example};
use crate::measure::Amount;
use crate::reading::{Part, Reading};
use crate::refusal::Refusal;
use assessment::MonthSettings;
use std::io;

/// The heads of the columns.
pub const HEAD: &str =
    "figure                                worked out        expected   published";

/// Prints a check's row, and counts it.
fn report_check<R: Reading>(
    rt: &(impl Print + AllocGlobal),
    worked: &R::Worked,
    check: &Check<R>,
    tally: Tally,
) -> io::Result<Tally> {
    let comparison = check.compare(worked)?;
    let part: Part = check.part.into();
    let name = check.reading.name(worked, check.part);
    let measure = check.reading.measure();
    let shown = |count: u64| Amount { count, measure }.to_string(rt.alloc());
    let figure = shown(comparison.figure)?;
    let exact = shown(comparison.exact)?;
    let published = comparison.published.map_or("-", |known| known.printed);
    let verdict = if comparison.holds() {
        "agrees"
    } else {
        "DIFFERS"
    };
    println!(rt; "  {part:<8} {name:<21}{figure:>16}{exact:>16}{published:>12}  {verdict}")?;
    Ok(tally.counted(&comparison))
}

/// Prints the examples with their figures and notes, and counts the figures. An error where the library refuses an
/// example, or where printing fails.
pub(crate) fn report<C: Case<R>, R: Reading>(
    rt: &(impl Print + AllocGlobal),
    examples: &[Example<C, R>],
    mut tally: Tally,
) -> io::Result<Tally> {
    for example in examples {
        rt.println(example.name)?;
        let settings = MonthSettings::new(example.month).ok_or(Refusal::NoSuchMonth)?;
        let worked = example.case.work(&settings)?;
        for check in example.checks {
            tally = report_check(rt, &worked, check, tally)?;
        }
        if let Some(note) = example.note {
            println!(rt; "  {note}")?;
        }
    }
    Ok(tally)
}
