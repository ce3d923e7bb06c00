//! A line: one resource's month in one pool.
use pools::PerPool;

/// What a line's obligation, availability and days make of it.
#[derive(Clone, Copy, Default, PartialEq, Eq, Debug)]
pub enum LineState {
    /// Nothing is owed, or no day is assessed.
    #[default]
    Empty,
    /// Availability is below 94.5 per cent of the obligation.
    Charged,
    /// Availability is 94.5 to 98.5 per cent of the obligation, the bounds included.
    Neutral,
    /// Availability is above 98.5 per cent of the obligation.
    Paid,
}

/// One resource in one pool over a month. The ranges are those of a line that `RulePair::month_lines` answers.
#[derive(Clone, Copy, Default, PartialEq, Eq, Debug)]
pub struct Line {
    /// O, the obligation summed over the month's days, in W: 0 to 62,000,000,000.
    pub obligation: u64,
    /// A, the availability summed likewise, in W: at most the obligation.
    pub availability: u64,
    /// N, the days of the month on which the pool's rule has hours, whatever was shown: 0 to 31.
    pub days: u32,
    /// What becomes of the line. Charged and paid lines may have the quantity 0.
    pub state: LineState,
    /// In W, on average over the days N: what is missing to 94.5 per cent of the obligation, if charged, or what passes
    /// 98.5 per cent of it, if paid. At most 58,590,000,000, and 0 if empty or neutral.
    pub quantity: u64,
}

/// A resource's two lines.
pub type MonthLines = PerPool<Line>;
