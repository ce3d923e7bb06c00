//! What is read from a day's figures and from a month's lines.
ghost use Rattle.std.specs.Prelude.{◌≡◌, ℕ, ◌+◌, MatchResult};
ghost use Rattle.examples.specs.Measures.{day_measure, line_measure};
ghost use Rattle.examples.specs.declared.measure.Measure.{Measure};
ghost use Rattle.examples.specs.declared.refusal.Refusal.{Refusal};
ghost use Rattle.pools.specs.PerPool.{entry_of};
ghost use Rattle.examples.specs.Readings.{millionths, average, in_part, from_day, from_line, ShareRefused};

use crate::measure::Measure;
use crate::refusal::Refusal;
use assessment::{DayFigures, Line, LineState, MonthLines, Watts};
use pools::Pool;
use std::fmt;

/// A pool, or the two together.
#[derive(Clone, Copy, Debug, PartialEq, Eq)]
pub enum Part {
    /// The figures of this pool.
    Of(Pool),
    /// The figures of both pools, added.
    Combined,
}

impl From<Pool> for Part {
    fn from(pool: Pool) -> Part {
        Part::Of(pool)
    }
}

impl fmt::Display for Part {
    fn fmt<W: fmt::Write>(&self, f: &mut fmt::Formatter<W>) -> fmt::Result {
        f.pad(match self {
            Part::Of(Pool::Generic) => "generic",
            Part::Of(Pool::Flexible) => "flexible",
            Part::Combined => "combined",
        })
    }
}

/// What is read from a worked example.
pub trait Reading: Copy {
    /// What the library gives for the example.
    type Worked: Drop;
    /// Whose figure is read: a pool's, or for a day also that of both together.
    type Part: Copy + Into<Part>;

    /// The figure that `read` answers.
    ghost figure_of: { Self.Worked → Self.Part → Self → ℕ };

    /// Why there is no figure.
    ghost refuses: { Self.Worked → Self.Part → Refusal → Type 0 };

    /// What the figure counts.
    ghost measure_of: { Self → Measure };

    /// The figure, in W, days or millionths as `measure` tells; refused where working it out passes 64 bits.
    fn read(self, worked: &Self::Worked, part: Self::Part) -> Result<u64, Refusal>
        ensures { MatchResult result (λ x. x ≡ figure_of worked.now part self) (refuses worked.now part) };

    /// What the figure counts.
    fn measure(self) -> Measure
        ensures { result ≡ measure_of self };

    /// The figure's name in print.
    fn name(self, worked: &Self::Worked, part: Self::Part) -> &'static str;
}

/// What is read from a day's figures.
#[derive(Clone, Copy, Debug, PartialEq, Eq)]
pub enum DayReading {
    /// The obligation, in W.
    Obligation,
    /// The availability, in W.
    Availability,
    /// The availability in millionths of the obligation, rounded down; 0 if nothing is owed.
    Share,
}

/// What is read from a line.
#[derive(Clone, Copy, Debug, PartialEq, Eq)]
pub enum LineReading {
    /// The obligation summed over the month, in W.
    Obligation,
    /// The availability summed likewise, in W.
    Availability,
    /// The sum of availability in millionths of that of obligation, rounded down; 0 if nothing is owed.
    Share,
    /// The days assessed, 0 to 31.
    Days,
    /// The average capacity in W: the obligation over the days assessed, rounded down; 0 without such days.
    Average,
    /// The line's quantity, in W.
    Quantity,
}

/// Availability in millionths of the obligation, 0 if nothing is owed; refused where a million times the availability
/// passes 64 bits.
fn share(availability: u64, obligation: u64) -> Result<u64, Refusal>
    ensures { MatchResult result (λ x. x ≡ millionths availability obligation) (ShareRefused availability) }
{
    let parts = availability
        .checked_mul(1_000_000)
        .ok_or(Refusal::TooLarge)?;
    Ok(parts.checked_div(obligation).unwrap_or(0))
}

fn average_over(watts: u64, days: u32) -> u64
    ensures { result ≡ average watts days }
{
    watts.checked_div(u64::from(days)).unwrap_or(0)
}

/// The figures of a pool, or of both together.
fn watts_in(figures: &DayFigures, part: Part) -> Watts
    ensures { result ≡ in_part figures.now part }
{
    match part {
        Part::Of(pool) => figures.get(pool).into(),
        Part::Combined => Watts::from(figures.generic) + Watts::from(figures.flexible),
    }
}

impl Reading for DayReading {
    type Worked = DayFigures;

    type Part = Part;

    ghost figure_of = { λ figures part reading. from_day (in_part figures part) reading };

    ghost refuses = { λ figures part. ShareRefused (in_part figures part).availability };

    ghost measure_of = { day_measure };

    fn read(self, figures: &DayFigures, part: Part) -> Result<u64, Refusal> {
        let watts = watts_in(figures, part);
        match self {
            DayReading::Obligation => Ok(watts.obligation),
            DayReading::Availability => Ok(watts.availability),
            DayReading::Share => share(watts.availability, watts.obligation),
        }
    }

    fn measure(self) -> Measure {
        match self {
            DayReading::Obligation | DayReading::Availability => Measure::Watts,
            DayReading::Share => Measure::Share,
        }
    }

    fn name(self, _figures: &DayFigures, _part: Part) -> &'static str {
        match self {
            DayReading::Obligation => "obligation",
            DayReading::Availability => "availability",
            DayReading::Share => "share available",
        }
    }
}

impl Reading for LineReading {
    type Worked = MonthLines;

    type Part = Pool;

    ghost figure_of = { λ lines pool reading. from_line (entry_of lines pool) reading };

    ghost refuses = { λ lines pool. ShareRefused (entry_of lines pool).availability };

    ghost measure_of = { line_measure };

    fn read(self, lines: &MonthLines, pool: Pool) -> Result<u64, Refusal> {
        let line = lines.get(pool);
        match self {
            LineReading::Obligation => Ok(line.obligation),
            LineReading::Availability => Ok(line.availability),
            LineReading::Share => share(line.availability, line.obligation),
            LineReading::Days => Ok(u64::from(line.days)),
            LineReading::Average => Ok(average_over(line.obligation, line.days)),
            LineReading::Quantity => Ok(line.quantity),
        }
    }

    fn measure(self) -> Measure {
        match self {
            LineReading::Share => Measure::Share,
            LineReading::Days => Measure::Days,
            LineReading::Obligation
            | LineReading::Availability
            | LineReading::Average
            | LineReading::Quantity => Measure::Watts,
        }
    }

    /// A quantity is named by the line's state.
    fn name(self, lines: &MonthLines, pool: Pool) -> &'static str {
        match (self, lines.get(pool).state) {
            (LineReading::Obligation, _) => "obligation, summed",
            (LineReading::Availability, _) => "availability, summed",
            (LineReading::Share, _) => "share available",
            (LineReading::Days, _) => "days assessed",
            (LineReading::Average, _) => "average capacity",
            (LineReading::Quantity, LineState::Charged) => "quantity charged",
            (LineReading::Quantity, LineState::Paid) => "quantity paid",
            (LineReading::Quantity, LineState::Empty | LineState::Neutral) => "quantity",
        }
    }
}
