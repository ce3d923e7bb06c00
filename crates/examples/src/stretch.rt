//! A month as stretches of like days, and its lines.
ghost use Rattle.std.specs.Prelude.{◌≡◌, MatchResult};
ghost use Rattle.assessment.specs.Days.{both};
ghost use Rattle.assessment.specs.Lines.{lines_of};
ghost use Rattle.assessment.specs.Rules.{generic_rule, flexible_rule};
ghost use Rattle.examples.specs.Months.{covers, plan_on, row_on, rows_of, RowRefused, RowsRefused, LinesRefused};

use crate::example::Case;
use crate::plan::{Plan, PlannedDay, category_of};
use crate::reading::LineReading;
use crate::refusal::Refusal;
use assessment::{DAY_PLACES, DayRow, MonthLines, MonthSettings, SHIPPED_RULES};
use std::array;

/// The same plan on each day from the first to the last, both included.
#[derive(Clone, Copy, PartialEq, Eq, Debug)]
pub struct Stretch {
    /// The first day's number in the month, from 1.
    pub first: u32,
    /// The last day's.
    pub last: u32,
    /// What is shown and bid on each of the days.
    pub plan: Plan,
}

impl Stretch {
    fn has(&self, day: u32) -> bool
        ensures { result ≡ covers self.now day }
    {
        (self.first..=self.last).contains(&day)
    }
}

/// A month of a resource, given as stretches of like days.
#[derive(Clone, Copy, PartialEq, Eq, Debug)]
pub struct PlannedMonth {
    /// The category of the resource's lines: a number as published, 0 to 3. The plans name their own.
    pub category: u32,
    /// The stretches. A day that is in several has the plan of the first of them; a day in none has an empty row.
    pub stretches: &'static [Stretch],
}

impl PlannedMonth {
    /// The plan of the first stretch that has the day.
    fn plan_on(&self, day: u32) -> Option<Plan>
        ensures { result ≡ plan_on self.now.stretches.now day }
    {
        self.stretches
            .iter()
            .find(|stretch| stretch.has(day))
            .map(|stretch| stretch.plan)
    }

    /// The row of a day, empty where no stretch has it.
    fn row_on(&self, settings: &MonthSettings, day: u32) -> Result<DayRow, Refusal>
        ensures { MatchResult result (λ row. row ≡ row_on settings.now.month self.now.stretches.now day) (RowRefused settings.now.month self.now.stretches.now day) }
    {
        match self.plan_on(day) {
            None => Ok(None),
            Some(plan) => Ok(PlannedDay { day, plan }.assess(settings)?.row()),
        }
    }

    /// The rows of the days 1 to 31, or the first refusal.
    fn rows(&self, settings: &MonthSettings) -> Result<[DayRow; DAY_PLACES], Refusal>
        ensures { MatchResult result (λ all. all ≡ rows_of settings.now.month self.now.stretches.now) (RowsRefused settings.now.month self.now.stretches.now) }
    {
        // `try_from_fn` would not do: its contract does not say what it calls.
        // `as` loses nothing: `past` is below 31.
        let rows: [_; DAY_PLACES] = array::from_fn(|past| self.row_on(settings, past as u32 + 1));
        rows.try_map(|row| row)
    }
}

impl Case<LineReading> for PlannedMonth {
    ghost figures_of = { λ p m. lines_of (both generic_rule flexible_rule) m p.category (rows_of m p.stretches.now) };

    ghost refuses = { λ p m. LinesRefused m p.category p.stretches.now };

    /// The two lines of the resource, by the two rules that ship.
    fn work(&self, settings: &MonthSettings) -> Result<MonthLines, Refusal> {
        let category = category_of(self.category)?;
        let rows = self.rows(settings)?;
        let lines = SHIPPED_RULES.month_lines(settings, category, &rows);
        lines.ok_or(Refusal::RowsPastLimits)
    }
}
