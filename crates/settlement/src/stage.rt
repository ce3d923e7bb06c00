//! Where a settlement stands among its months.
use crate::price::Price;
use assessment::{MonthDate, MonthSettings};

/// An open month, within its limits.
#[derive(Clone, Copy, PartialEq, Eq, Debug)]
pub struct OpenMonth {
    /// The month, and what the calendar tells of it.
    pub settings: MonthSettings,
    /// Charged lines are charged at it, and three times it is the most that is paid; cents for a megawatt and month, 0 to 500,000.
    pub price: Price,
}

/// What is open, and what is due.
#[derive(Clone, Copy, PartialEq, Eq, Debug)]
pub enum Stage {
    /// No month was opened yet: the first may be any.
    Fresh,
    /// This month is open: its days are recorded, and it can be closed.
    Open(OpenMonth),
    /// The last month that was closed; the next one follows it.
    Closed(MonthDate),
    /// A December was closed: its release comes first.
    ReleaseDue(MonthDate),
}
