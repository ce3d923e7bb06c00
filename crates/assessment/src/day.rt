//! A resource's day by any two rules: the obligation and availability of both pools, in watts.
ghost use Rattle.std.specs.Prelude.{◌≡◌, ◌≤◌};
ghost use Rattle.assessment.specs.Days.{figure, pool_figures, day_case, day_figures};
ghost use Rattle.assessment.specs.Laws.{DayLaw, LittleLost};
ghost use Rattle.assessment.specs.Lines.{PoolWithin};
ghost use Rattle.assessment.specs.Pairs.{rules_of};
ghost use Rattle.assessment.specs.Totals.{totals_of};

use crate::day_record::{DatedRecord, LargerNet};
use crate::day_result::{DayFigures, DayResult, PoolFigures};
use crate::rule::AvailabilityRule;
use crate::rule_pair::RulePair;
use crate::totals::PoolTotals;

/// An amount of kWh as the day's watts; 0 if the pool is not assessed. The products come first and are exact, since
/// `PoolTotals` and `LargerNet` keep them within 64 bits; one division follows.
fn watts(amount: u64, own: PoolTotals, other: PoolTotals, largest: LargerNet) -> u64
    requires { amount ≤ own.owed }
    ensures is { result ≡ figure amount (totals_of own) (totals_of other) largest.kilowatts }
    ensures grows { result ≤ figure own.owed (totals_of own) (totals_of other) largest.kilowatts }
    ensures capped { result ≤ 2000000000 }
{
    match (own.hours, other.hours) {
        (0, _) => 0,
        (hours, 0) => 1000 * amount / hours,
        (hours, other_hours) => {
            let weight = own.owed * other_hours + other.owed * hours;
            if weight == 0 {
                0
            } else {
                1000 * amount * other_hours * largest.kilowatts / weight
            }
        }
    }
}

fn pool_day(own: PoolTotals, other: PoolTotals, largest: LargerNet) -> PoolFigures
    ensures is { result ≡ pool_figures (totals_of own) (totals_of other) largest.kilowatts }
    ensures within { PoolWithin result }
{
    let obligation = watts(own.owed, own, other, largest);
    let day_ahead = watts(own.day_ahead, own, other, largest);
    let real_time = watts(own.real_time, own, other, largest);
    // `as` loses nothing: each figure is at most 2,000,000,000.
    PoolFigures {
        obligation: obligation as u32,
        availability: day_ahead.min(real_time) as u32,
    }
}

impl<G: AvailabilityRule, F: AvailabilityRule> RulePair<G, F> {
    /// The day's result under the two rules, in W; a pool without an assessed hour has zeros.
    pub fn assess_day(&self, submitted: &DatedRecord) -> DayResult
        ensures is { result.figures ≡ day_figures (rules_of G.means F.means self.now) (day_case submitted.now) }
        ensures law { DayLaw (rules_of G.means F.means self.now) (day_case submitted.now) }
        ensures little_lost { LittleLost (rules_of G.means F.means self.now) (day_case submitted.now) }
    {
        let totals = self.assess_hours(submitted);
        let largest = submitted.record.larger_net();
        // A pool's own totals come first: each is weighed with the other's.
        DayResult {
            figures: DayFigures {
                generic: pool_day(totals.generic, totals.flexible, largest),
                flexible: pool_day(totals.flexible, totals.generic, largest),
            },
        }
    }
}
