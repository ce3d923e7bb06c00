//! A trade month within its limits, and one of its days. What the calendar
//! tells of the month is worked out once, when the settings are made.
ghost use Rattle.std.specs.Prelude.{◌≡◌, ◌≤◌};
ghost use Rattle.assessment.specs.Calendar.{DateWithin, MarksWithin, WindowsWithin, days_of, weekday_of, is_work, works};

use crate::trade_month::{DayKind, TradeMonth};

/// A trade month within its limits, with what the calendar tells of it. `MonthSettings::new` makes it.
#[derive(Clone, Copy, PartialEq, Eq, Debug)]
pub struct MonthSettings {
    /// The month as it was handed in.
    pub month: TradeMonth,
    /// How many days it has, 28 to 31.
    pub days: u32,
    /// The weekday of the month's first day: 0 is Sunday, 6 Saturday.
    pub first_weekday: u32,
    ghost dated: { DateWithin month },
    ghost marks: { MarksWithin month },
    ghost windows: { WindowsWithin month },
    ghost days_are: { days ≡ days_of month },
    ghost first_is: { first_weekday ≡ weekday_of month 1 },
}

/// A day of a trade month. `MonthSettings::day` makes it.
#[derive(Clone, Copy, PartialEq, Eq, Debug)]
pub struct TradeDay {
    /// The month that the day is of.
    pub settings: MonthSettings,
    /// Its number, 1 to the month's last day.
    pub day: u32,
    /// Whether it is a work day.
    pub kind: DayKind,
    ghost in_month: { (1 ≤ day) × (day ≤ settings.days) },
    ghost kind_is: { is_work kind ≡ works settings.month day },
}
