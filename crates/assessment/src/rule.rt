//! The availability rule: which hours it assesses, and what it takes of a bid.
ghost use Rattle.std.specs.Prelude.{◌≡◌};
ghost use Rattle.assessment.specs.Rules.{Rule, EconomicWithin, ScheduledWithin, TakenWithin};

use crate::category::Category;
use crate::settings::TradeDay;
use crate::submission::Bid;

/// Which hours a rule assesses, and what counts of a bid there. A rule's meaning is a function of the rule alone, so
/// equal questions have equal answers; the three laws are what else every rule owes.
pub trait AvailabilityRule {
    /// What the rule means, as two functions: the hours that it assesses, and what it takes of a bid.
    ghost means: { Self → Rule };

    /// Whether the rule assesses the category in this hour ending, 1 to 24, of the day.
    fn assesses(&self, day: &TradeDay, category: Category, hour: u32) -> bool
        ensures { result ≡ (means self.now).assesses day.now.settings.month category.number day.now.day hour };

    /// What the rule takes of the bid towards the obligation, all in kW of one hour: of the economic bid, then of the
    /// self-schedule. Asked with any 32-bit numbers, and with an obligation of 0 in an hour that only the other pool's rule
    /// assesses.
    fn take(&self, obligation: u32, bid: Bid) -> (u32, u32)
        ensures { result ≡ (means self.now).takes obligation bid.economic bid.self_scheduled };

    /// No more is taken of an economic bid than it has.
    ghost economic: { (x : Self) → EconomicWithin (means x) };

    /// No more is taken of a self-schedule than it has.
    ghost scheduled: { (x : Self) → ScheduledWithin (means x) };

    /// No more is taken of both together than is owed.
    ghost taken: { (x : Self) → TakenWithin (means x) };
}

/// A rule lent is the rule, so a pair of rules may borrow the two that its caller keeps.
impl<R: AvailabilityRule> AvailabilityRule for &R {
    ghost means = { λ r. R.means r.now };

    ghost economic = { λ r. R.economic r.now };

    ghost scheduled = { λ r. R.scheduled r.now };

    ghost taken = { λ r. R.taken r.now };

    fn assesses(&self, day: &TradeDay, category: Category, hour: u32) -> bool {
        (**self).assesses(day, category, hour)
    }

    fn take(&self, obligation: u32, bid: Bid) -> (u32, u32) {
        (**self).take(obligation, bid)
    }
}
