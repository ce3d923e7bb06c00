//! What a pool comes to over some hours of a day.
ghost use Rattle.std.specs.Prelude.{◌≡◌, ◌+◌, ◌*◌, ◌≤◌};

use std::ops::Add;

/// The assessed hours, the kWh owed in them, and the kWh that each market gave.
#[derive(Clone, Copy, PartialEq, Eq, Debug)]
pub struct PoolTotals {
    /// How many of the hours are assessed, 0 to 24.
    pub hours: u64,
    /// The hourly obligations summed, in kWh: at most 2,000,000 an assessed hour.
    pub owed: u64,
    /// What the pool's rule took in the day-ahead market, in kWh: at most what is owed.
    pub day_ahead: u64,
    /// What it took in the real-time market, likewise.
    pub real_time: u64,
    ghost few: { hours ≤ 24 },
    ghost capped: { owed ≤ 2000000 * hours },
    ghost day_ahead_within: { day_ahead ≤ owed },
    ghost real_time_within: { real_time ≤ owed },
}

/// No hours, and nothing owed or given.
// By hand: none is derived for a struct with ghost fields.
impl Default for PoolTotals {
    ghost use Rattle.assessment.specs.Totals.{totals_of, totals_none};

    ghost is_default = { λ t. totals_of t ≡ totals_none };

    fn default() -> PoolTotals {
        PoolTotals {
            hours: 0,
            owed: 0,
            day_ahead: 0,
            real_time: 0,
        }
    }
}

impl Add for PoolTotals {
    ghost use Rattle.assessment.specs.Totals.{totals_add, totals_of};

    type Output = PoolTotals;

    ghost can_add = { λ a b. a.hours + b.hours ≤ 24 };

    ghost add_gives = { λ a b r. totals_of r ≡ totals_add (totals_of a) (totals_of b) };

    fn add(self, other: PoolTotals) -> PoolTotals {
        PoolTotals {
            hours: self.hours + other.hours,
            owed: self.owed + other.owed,
            day_ahead: self.day_ahead + other.day_ahead,
            real_time: self.real_time + other.real_time,
        }
    }
}
