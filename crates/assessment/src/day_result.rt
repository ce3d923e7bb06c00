//! What is owed and available in watts: of a day as plain rows of a day table, as a day result
//! within its limits, and in sums.
ghost use Rattle.std.specs.Prelude.{◌≡◌, ◌+◌, ◌<◌, ◌^◌};
ghost use Rattle.assessment.specs.Lines.{FiguresWithin, plus};

use pools::PerPool;
use std::ops::Add;

/// What is owed and what is available in a pool. Any two numbers: `DayResult` limits those of a day, `Line` those of a month.
#[derive(Clone, Copy, Default, PartialEq, Eq, Debug)]
pub struct Figures<N> {
    /// What the resource has to offer, in W.
    pub obligation: N,
    /// What it offered towards that, in W.
    pub availability: N,
}

/// A pool's figures of a day, in W.
pub type PoolFigures = Figures<u32>;

/// Sums of such figures, in W, which may need more than 32 bits and fit 64.
pub type Watts = Figures<u64>;

impl From<PoolFigures> for Watts {
    ghost from_gives = { λ day sums. (sums ≡ day) × (sums.obligation < 2 ^ 32) × (sums.availability < 2 ^ 32) };

    fn from(day: PoolFigures) -> Watts {
        Watts {
            obligation: u64::from(day.obligation),
            availability: u64::from(day.availability),
        }
    }
}

/// Field by field. Asks that both sums fit 64 bits.
impl Add for Watts {
    type Output = Watts;

    ghost can_add = { λ a b. (a.obligation + b.obligation < 2 ^ 64) × (a.availability + b.availability < 2 ^ 64) };

    ghost add_gives = { λ a b r. r ≡ plus a b };

    fn add(self, other: Watts) -> Watts {
        Watts {
            obligation: self.obligation + other.obligation,
            availability: self.availability + other.availability,
        }
    }
}

/// A day's figures in each pool, in W.
pub type DayFigures = PerPool<PoolFigures>;

/// A place of a day table: None where nothing is recorded.
pub type DayRow = Option<DayFigures>;

/// The places of a resource in a day table: one for each day that a month may have.
pub const DAY_PLACES: usize = 31;

/// A day's figures within their limits: worked out by `RulePair::assess_day`, or of a row that `DayResult::of_row` checks.
#[derive(Clone, Copy, PartialEq, Eq, Debug)]
pub struct DayResult {
    /// In W, in each pool: availability at most obligation, and obligation 0 to 2,000,000,000.
    pub figures: DayFigures,
    ghost within: { FiguresWithin figures },
}
