//! A calendar month, and what the calendar tells of it.
ghost use Rattle.std.specs.Prelude.{◌≡◌, ◌+◌, ◌-◌, ◌*◌, ◌^◌, ◌<◌, ◌≤◌, MatchOption};
ghost use Rattle.assessment.specs.Sums.{sum_to};
ghost use Rattle.assessment.specs.Calendar.{leap, days_in, weekday, date_of, next_month};

use crate::trade_month::TradeMonth;

/// The number of a year's last month.
pub const DECEMBER: u32 = 12;

/// A month of a year, as plain numbers: they are not checked here.
#[derive(Clone, Copy, PartialEq, Eq, Debug)]
pub struct MonthDate {
    /// The Gregorian year; 2018 to 2099 in a trade month within its limits.
    pub year: u32,
    /// The month's number, 1 to 12.
    pub month: u32,
}

impl From<&TradeMonth> for MonthDate {
    ghost from_gives = { λ m d. d ≡ date_of m.now };

    fn from(month: &TradeMonth) -> MonthDate {
        MonthDate {
            year: month.year,
            month: month.month,
        }
    }
}

impl MonthDate {
    /// The month after this one; None where its numbers would not fit 32 bits.
    pub fn next(self) -> Option<MonthDate>
        ensures { MatchOption result (((next_month self).year < 2 ^ 32) × ((next_month self).month < 2 ^ 32) → ⊥) (λ d. d ≡ next_month self) }
    {
        if self.month == DECEMBER {
            Some(MonthDate {
                year: self.year.checked_add(1)?,
                month: 1,
            })
        } else {
            Some(MonthDate {
                month: self.month.checked_add(1)?,
                ..self
            })
        }
    }

    fn is_in_leap_year(self) -> bool
        ensures { result ≡ leap self.year }
    {
        self.year % 4 == 0 && (self.year % 100 != 0 || self.year % 400 == 0)
    }

    /// How many days the month has, 28 to 31.
    pub(crate) fn days(self) -> u32
        ensures is { result ≡ days_in self.year self.month }
        ensures some { 28 ≤ result }
        ensures few { result ≤ 31 }
    {
        match self.month {
            4 | 6 | 9 | 11 => 30,
            2 => { if self.is_in_leap_year() { 29 } else { 28 } }
            _ => 31,
        }
    }

    /// How many days of the year come before the month.
    fn days_before(self) -> u32
        requires from { 1 ≤ self.month }
        requires to { self.month ≤ 12 }
        ensures is { result ≡ sum_to (days_in self.year) (self.month - 1) }
        ensures few { result ≤ 31 * self.month }
    {
        (1..self.month)
            .map(|month| MonthDate { month, ..self }.days())
            .sum()
    }

    /// The weekday of the month's first day: 0 is Sunday, 6 Saturday.
    pub(crate) fn first_weekday(self) -> u32
        requires from_year { 1 ≤ self.year }
        requires to_year { self.year ≤ 2099 }
        requires from_month { 1 ≤ self.month }
        requires to_month { self.month ≤ 12 }
        ensures { result ≡ weekday self.year self.month 1 }
    {
        let past = self.year - 1;
        let before = 365 * past + past / 4 + past / 400 - past / 100;
        (before + self.days_before() + 1) % 7
    }
}
