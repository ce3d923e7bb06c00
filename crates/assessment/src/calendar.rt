//! The calendar of a trade month, and the check that turns a plain month into settings.
ghost use Rattle.std.specs.Prelude.{◌≡◌, ◌≤◌, MatchBool, MatchOption};
ghost use Rattle.assessment.specs.Calendar.{days_of, work_days, StartWithin, DateWithin, WindowsWithin, MonthWithin};

use crate::month_date::MonthDate;
use crate::settings::{MonthSettings, TradeDay};
use crate::trade_month::{DayKind, TradeMonth};

fn date_within(month: &TradeMonth) -> bool
    ensures { MatchBool result (DateWithin month.now) (DateWithin month.now → ⊥) }
{
    (2018..=2099).contains(&month.year) && (1..=12).contains(&month.month)
}

fn start_within(start: u32) -> bool
    ensures { MatchBool result (StartWithin start) (StartWithin start → ⊥) }
{
    (1..=20).contains(&start)
}

fn windows_within(month: &TradeMonth) -> bool
    ensures { MatchBool result (WindowsWithin month.now) (WindowsWithin month.now → ⊥) }
{
    start_within(month.generic_start)
        && start_within(month.category2_start)
        && start_within(month.category3_start)
}

impl MonthSettings {
    /// The settings of a month within its limits. None if the year is not 2018 to 2099, the month not 1 to 12, one of
    /// the three window starts not 1 to 20, or a day has a holiday mark that the month lacks.
    pub fn new(month: TradeMonth) -> Option<MonthSettings>
        ensures { MatchOption result (MonthWithin month → ⊥) (λ s. s.month ≡ month) }
    {
        if !date_within(&month) || !windows_within(&month) {
            return None;
        }
        let date = MonthDate::from(&month);
        let days = date.days();
        if month.holidays >> days != 0 {
            return None;
        }
        let first_weekday = date.first_weekday();
        Some(MonthSettings {
            month,
            days,
            first_weekday,
        })
    }

    /// One of the month's days, with its kind; None for day 0 and past the month's end.
    pub fn day(&self, day: u32) -> Option<TradeDay>
        ensures { MatchOption result ((1 ≤ day) × (day ≤ days_of self.now.month) → ⊥) (λ d. (d.day ≡ day) × (d.settings ≡ self.now)) }
    {
        (1..=self.days).contains(&day).then(|| self.trade_day(day))
    }

    /// How many work days the month has, at most 31.
    pub fn work_days(&self) -> u32
        ensures is { result ≡ work_days self.now.month }
        ensures few { result ≤ 31 }
    {
        (1..self.days + 1)
            .map(|day| u32::from(self.trade_day(day).kind == DayKind::WorkDay))
            .sum()
    }

    /// A day of the month, with its kind.
    pub(crate) fn trade_day(&self, day: u32) -> TradeDay
        requires from { 1 ≤ day }
        requires to { day ≤ self.now.days }
        ensures day { result.day ≡ day }
        ensures settings { result.settings ≡ self.now }
    {
        let weekday = (self.first_weekday + day - 1) % 7;
        let marked = (self.month.holidays >> (day - 1)) % 2 == 1;
        // Two comparisons, for the reason of `in_window`.
        let kind = if 1 <= weekday && weekday <= 5 && !marked {
            DayKind::WorkDay
        } else {
            DayKind::OffDay
        };
        TradeDay {
            settings: *self,
            day,
            kind,
        }
    }
}
