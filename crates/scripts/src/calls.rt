//! The calls of a script, and the call that a line is. Its numbers are any that their bits hold: limits are tested when the call is made.
//! A function that needs memory takes it from its argument `heap`, and fails where it runs out.
ghost use Rattle.std.specs.Prelude.{◌≡◌, length, MatchResult, ◌≢◌};
ghost use Rattle.scripts.specs.Calls.{terms_of, row_of, day_of};

use crate::books::{BookPlan, plan};
use crate::line_fault::LineFault;
use crate::numbers::{short_numbers, wide_number};
use crate::verbs::Verb;
use assessment::{
    DayFigures, DayRow, DaySubmission, HOURS, HourBids, PoolFigures, Showing, TradeMonth,
};
use pools::PerPool;
use settlement::{LoadEntry, MonthTerms, ResourceDay, RosterEntry, SubmittedDay};
use std::alloc::{AllocError, Global};

/// A row for the day table, and the place that it goes to.
#[derive(Clone, Copy, PartialEq, Eq, Debug)]
pub struct PlacedRow {
    /// Counted from 0; past the day table there is none.
    pub place: u32,
    /// Its figures in watts: a row of a script is never empty.
    pub row: DayRow,
}

/// How long the day table and the line table are to be.
#[derive(Clone, Copy, PartialEq, Eq, Debug)]
pub struct TableLengths {
    /// Places of the day table.
    pub days: u32,
    /// Entries of the line table.
    pub lines: u32,
}

/// A call with what its line hands in.
#[derive(PartialEq, Eq, Debug, Drop)]
pub enum Call {
    /// Starts a settlement over this book: the first call, and only that.
    Start(BookPlan),
    /// Sets the roster, and empty tables that fit it.
    Roster(Vec<RosterEntry>),
    /// Sets empty tables of these lengths.
    Tables(TableLengths),
    /// Puts a row into the day table.
    Row(PlacedRow),
    /// Opens a month on these terms.
    Open(MonthTerms),
    /// Records a resource's day, in kW.
    Record(SubmittedDay),
    /// Closes the month.
    Close,
    /// Releases the fund to these loads, in GWh, whose shares are 0 until then.
    Release(Vec<LoadEntry>),
}

/// Categories as a roster: each resource's identifier is its number.
fn roster(heap: Global, categories: &[u32]) -> Result<Vec<RosterEntry>, LineFault> {
    // Counted in a usize, so that a roster too long for 32 bits is refused below and not cut short.
    categories
        .iter()
        .enumerate()
        .map(|(number, category)| -> Result<RosterEntry, LineFault> {
            // More resources than a u32 counts are told as want of memory: no other fault of a line fits them.
            let identifier = u32::try_from(number).map_err(|_| LineFault::NoMemory(AllocError))?;
            Ok(RosterEntry {
                identifier,
                category: *category,
            })
        })
        .try_collect(heap)
}

/// The words as loads with shares of 0. Refuses the first word that is no 64-bit decimal number.
fn load_entries(heap: Global, words: &[&str]) -> Result<Vec<LoadEntry>, LineFault> {
    (1..)
        .zip(words)
        .map(|(at, word)| -> Result<LoadEntry, LineFault> {
            Ok(LoadEntry {
                load: wide_number(word, at)?,
                shares: PerPool::default(),
            })
        })
        .try_collect(heap)
}

/// The numbers of a call that takes N. Refuses more, and fewer.
fn exactly<const N: usize>(numbers: &[u32]) -> Result<[u32; N], LineFault>
    ensures { MatchResult result (λ ns. ns ≡ numbers.now) (λ _. length numbers.now ≢ N) }
{
    <[u32; N]>::try_from(numbers).map_err(|_| LineFault::WrongCount(N))
}

impl From<[u32; 2]> for TableLengths {
    fn from([days, lines]: [u32; 2]) -> TableLengths {
        TableLengths { days, lines }
    }
}

/// The numbers in the script's order: the place, then obligation and availability, generic before flexible.
impl From<[u32; 5]> for PlacedRow {
    ghost from_gives = { λ ns r. r ≡ row_of ns };

    fn from(numbers: [u32; 5]) -> PlacedRow {
        let [
            place,
            generic_obligation,
            generic_availability,
            flexible_obligation,
            flexible_availability,
        ] = numbers;
        let figures = DayFigures {
            generic: PoolFigures {
                obligation: generic_obligation,
                availability: generic_availability,
            },
            flexible: PoolFigures {
                obligation: flexible_obligation,
                availability: flexible_availability,
            },
        };
        PlacedRow {
            place,
            row: Some(figures),
        }
    }
}

/// The terms of `open`, by the script's order of the numbers: the price stands before the standing, as it does not in a month file.
fn month_terms(numbers: [u32; 8]) -> MonthTerms
    ensures { result ≡ terms_of numbers }
{
    let [
        year,
        month,
        holidays,
        generic_start,
        category2_start,
        category3_start,
        price,
        standing,
    ] = numbers;
    MonthTerms {
        month: TradeMonth {
            year,
            month,
            holidays,
            generic_start,
            category2_start,
            category3_start,
        },
        price,
        standing,
    }
}

/// The day of `record`, by the script's order of the numbers: both showings come before both exemptions, and the four bids are
/// those of every hour.
fn submitted_day(numbers: [u32; 10]) -> SubmittedDay
    ensures { result ≡ day_of numbers }
{
    let [resource, day, sg, sf, eg, ef, de, ds, re, rs] = numbers;
    SubmittedDay {
        at: ResourceDay { resource, day },
        submission: DaySubmission {
            showings: PerPool {
                generic: Showing {
                    shown: sg,
                    exempt: eg,
                },
                flexible: Showing {
                    shown: sf,
                    exempt: ef,
                },
            },
            hours: [HourBids::from([de, ds, re, rs]); HOURS],
        },
    }
}

fn numbers<const N: usize>(heap: Global, words: &[&str]) -> Result<[u32; N], LineFault> {
    exactly(short_numbers(heap, words)?.as_slice())
}

fn call_of(heap: Global, verb: Verb, words: &[&str]) -> Result<Call, LineFault> {
    match verb {
        Verb::Start => Ok(Call::Start(plan(words)?)),
        Verb::Roster => {
            let categories = short_numbers(heap, words)?;
            Ok(Call::Roster(roster(heap, categories.as_slice())?))
        }
        Verb::Tables => Ok(Call::Tables(numbers::<2>(heap, words)?.into())),
        Verb::Row => Ok(Call::Row(numbers::<5>(heap, words)?.into())),
        Verb::Open => Ok(Call::Open(month_terms(numbers(heap, words)?))),
        Verb::Record => Ok(Call::Record(submitted_day(numbers(heap, words)?))),
        Verb::Close => {
            let [] = numbers::<0>(heap, words)?;
            Ok(Call::Close)
        }
        Verb::Release => Ok(Call::Release(load_entries(heap, words)?)),
    }
}

/// The call that the line is: a name, and words each parted by one space. Refuses a name that is no call's, a word that is no
/// number, a wrong count of numbers and a `start` without a book.
pub(crate) fn parse(heap: Global, line: &str) -> Result<Call, LineFault> {
    let words: Vec<&str> = line.split(' ').collect(heap)?;
    let (name, rest) = words.split_first().ok_or(LineFault::NoSuchCall)?;
    call_of(heap, name.parse()?, rest)
}
