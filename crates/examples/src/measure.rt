//! What a figure counts, and a figure in words.
use std::fmt;

/// What a figure counts.
#[derive(Clone, Copy, Debug, PartialEq, Eq)]
pub enum Measure {
    /// W, of a day or of a month.
    Watts,
    /// Millionths of a whole, shown in per cent.
    Share,
    /// Days of a month.
    Days,
}

/// A figure that prints itself with its unit.
#[derive(Clone, Copy, Debug, PartialEq, Eq)]
pub struct Amount {
    /// How many W, millionths or days.
    pub count: u64,
    /// Which of these it counts.
    pub measure: Measure,
}

impl fmt::Display for Amount {
    fn fmt<W: fmt::Write>(&self, f: &mut fmt::Formatter<W>) -> fmt::Result {
        let count = self.count;
        match self.measure {
            Measure::Watts => write!(f, "{count} W"),
            Measure::Share => write!(f, "{}.{:04} %", count / 10_000, count % 10_000),
            Measure::Days => write!(f, "{count} days"),
        }
    }
}
