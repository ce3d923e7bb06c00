//! The hours of a day: what each pool owes in them, and what each market gives.
ghost use Rattle.std.specs.Prelude.{◌≡◌, ◌+◌, ◌≤◌, cond, is_some, unwrap_or};
ghost use Rattle.assessment.specs.Days.{day_case, in_all, generic_in, flexible_in, generic_due, flexible_due, flexible_taken, generic_taken, hour_of, hours_to};
ghost use Rattle.assessment.specs.Pairs.{rules_of};
ghost use Rattle.pools.specs.PerPool.{entry_of};
ghost use Rattle.pools.specs.declared.pool.Pool.{Pool};
ghost use Rattle.assessment.specs.Totals.{totals_of};

use crate::day_record::DatedRecord;
use crate::rule::AvailabilityRule;
use crate::rule_pair::RulePair;
use crate::submission::{Bid, HourBids};
use crate::totals::PoolTotals;
use pools::{PerPool, Pool};

/// An hour's kW in each pool: what is owed, or what a market gives.
type Kilowatts = PerPool<u32>;

/// A pool's hour: what it owes there, None where its rule does not assess it, and what each market gives.
fn pool_hour(due: Option<u32>, day_ahead: u32, real_time: u32) -> PoolTotals
    requires capped { unwrap_or due 0 ≤ 2000000 }
    requires day_ahead_within { day_ahead ≤ unwrap_or due 0 }
    requires real_time_within { real_time ≤ unwrap_or due 0 }
    ensures { totals_of result ≡ record { hours = cond (is_some due) 1 0; owed = unwrap_or due 0; day_ahead = day_ahead; real_time = real_time } }
{
    match due {
        None => PoolTotals::default(),
        Some(owed) => PoolTotals {
            hours: 1,
            owed: u64::from(owed),
            day_ahead: u64::from(day_ahead),
            real_time: u64::from(real_time),
        },
    }
}

impl<G: AvailabilityRule, F: AvailabilityRule> RulePair<G, F> {
    /// What each rule takes of a market's bid: the flexible rule first, the generic rule from what it leaves.
    fn take_both(&self, owed: Kilowatts, bid: Bid) -> Kilowatts
        ensures flexible_is { result.flexible ≡ in_all (flexible_taken (rules_of G.means F.means self.now) owed.flexible bid) }
        ensures generic_is { result.generic ≡ in_all (generic_taken (rules_of G.means F.means self.now) owed.generic owed.flexible bid) }
        ensures within { (p : Pool) → entry_of result p ≤ entry_of owed p }
    {
        let (first_economic, first_scheduled) = self.flexible.take(owed.flexible, bid);
        let left = Bid {
            economic: bid.economic - first_economic,
            self_scheduled: bid.self_scheduled - first_scheduled,
        };
        let (then_economic, then_scheduled) = self.generic.take(owed.generic, left);
        Kilowatts {
            generic: then_economic + then_scheduled,
            flexible: first_economic + first_scheduled,
        }
    }

    /// What each pool owes in the hour, in kW; None where its rule does not assess it. Where
    /// both do, the flexible showing is owed once, in its own pool.
    fn due_in(&self, submitted: &DatedRecord, hour: u32) -> PerPool<Option<u32>>
        ensures generic_in { is_some result.generic ≡ generic_in (rules_of G.means F.means self.now) (day_case submitted.now) hour }
        ensures flexible_in { is_some result.flexible ≡ flexible_in (rules_of G.means F.means self.now) (day_case submitted.now) hour }
        ensures generic_is { unwrap_or result.generic 0 ≡ generic_due (rules_of G.means F.means self.now) (day_case submitted.now) hour }
        ensures flexible_is { unwrap_or result.flexible 0 ≡ flexible_due (rules_of G.means F.means self.now) (day_case submitted.now) hour }
        ensures capped { (p : Pool) → unwrap_or (entry_of result p) 0 ≤ 2000000 }
    {
        let flexible = self
            .flexible
            .assesses(&submitted.day, submitted.record.category, hour)
            .then(|| submitted.record.net(Pool::Flexible));
        let first = flexible.unwrap_or(0);
        let generic = self
            .generic
            .assesses(&submitted.day, submitted.record.category, hour)
            .then(|| submitted.record.net(Pool::Generic).saturating_sub(first));
        PerPool { generic, flexible }
    }

    fn assess_hour(
        &self,
        submitted: &DatedRecord,
        hour: u32,
        bids: &HourBids,
    ) -> PerPool<PoolTotals>
        ensures { (p : Pool) → totals_of (entry_of result p) ≡ hour_of (rules_of G.means F.means self.now) (day_case submitted.now) p bids.now hour }
    {
        let due = self.due_in(submitted, hour);
        if due.generic.is_none() && due.flexible.is_none() {
            // For speed: where neither rule assesses the hour nothing is owed, and no rule takes more than that.
            return PerPool::default();
        }
        let owed = PerPool::of(|pool| due.get(pool).unwrap_or(0));
        let day_ahead = self.take_both(owed, bids.day_ahead);
        let real_time = self.take_both(owed, bids.real_time);
        PerPool::of(|pool| pool_hour(due.get(pool), day_ahead.get(pool), real_time.get(pool)))
    }

    /// The day's totals: each pool over its 24 hours.
    pub(crate) fn assess_hours(&self, submitted: &DatedRecord) -> PerPool<PoolTotals>
        ensures { (p : Pool) → totals_of (entry_of result p) ≡ hours_to (rules_of G.means F.means self.now) (day_case submitted.now) p 24 }
    {
        let mut totals: PerPool<PoolTotals> = PerPool::default();
        for (hour, bids) in (1..).zip(&submitted.record.submission.hours) {
            let in_hour = self.assess_hour(submitted, hour, bids);
            totals = PerPool::of(|pool| totals.get(pool) + in_hour.get(pool));
        }
        totals
    }
}
