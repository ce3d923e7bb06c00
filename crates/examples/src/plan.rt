//! What a resource shows and bids on a day, and the day's assessment.
ghost use Rattle.std.specs.Prelude.{◌≡◌, ◌<◌, MatchResult};
ghost use Rattle.examples.specs.Plans.{bid_in, hours_of, submission_of, planned, DayRefused};
ghost use Rattle.examples.specs.declared.refusal.Refusal.TheVariants.{NoSuchCategory};

use crate::example::Case;
use crate::reading::DayReading;
use crate::refusal::Refusal;
use assessment::{
    Bid, Category, DatedRecord, DayFigures, DayRecord, DayResult, DaySubmission, HOURS, HourBids,
    MonthSettings, SHIPPED_RULES, Showing,
};
use pools::PerPool;
use std::array;

/// No bid: 0 kW in both ways of offering.
pub const NOTHING: Bid = Bid {
    economic: 0,
    self_scheduled: 0,
};

/// The bids of a day by hour ending, in kW, alike in both markets.
#[derive(Clone, Copy, PartialEq, Eq, Debug)]
pub enum Offer {
    /// The same bid in every hour.
    EveryHour(Bid),
    /// Nothing in one hour ending, 1 to 24, the bid in every other.
    AllBut(u32, Bid),
    /// One bid up to an hour ending, 1 to 24, and in it, another after it.
    Until(u32, Bid, Bid),
}

/// A resource's day: its category, what it is shown with, and its bids. Nothing is exempt.
#[derive(Clone, Copy, PartialEq, Eq, Debug)]
pub struct Plan {
    /// A number as published, 0 to 3: `category_of` tests it.
    pub category: u32,
    /// The kW shown in each pool.
    pub shown: PerPool<u32>,
    /// The bids of its hours.
    pub offer: Offer,
}

impl Offer {
    fn bid_in(self, hour: u32) -> Bid
        ensures { result ≡ bid_in self hour }
    {
        match self {
            Offer::EveryHour(bid) => bid,
            Offer::AllBut(out, bid) => { if hour == out { NOTHING } else { bid } }
            Offer::Until(last, before, after) => { if hour <= last { before } else { after } }
        }
    }

    fn hours(self) -> [HourBids; HOURS]
        ensures { result ≡ hours_of self }
    {
        // `as` loses nothing: `passed` is below 24.
        array::from_fn(|passed| HourBids::from(self.bid_in(passed as u32 + 1)))
    }
}

impl Plan {
    fn submission(&self) -> DaySubmission
        ensures { result ≡ submission_of self.now }
    {
        DaySubmission {
            showings: PerPool::of(|pool| Showing {
                shown: self.shown.get(pool),
                exempt: 0,
            }),
            hours: self.offer.hours(),
        }
    }
}

/// The category of a published number; a number above 3 is refused.
pub(crate) fn category_of(number: u32) -> Result<Category, Refusal>
    ensures { MatchResult result (λ c. c.number ≡ number) (λ e. (e ≡ NoSuchCategory) × (3 < number)) }
{
    Category::try_from(number).map_err(|_| Refusal::NoSuchCategory)
}

/// A day of the month, and what is planned for it.
#[derive(Clone, Copy, PartialEq, Eq, Debug)]
pub struct PlannedDay {
    /// Its number in the month, from 1.
    pub day: u32,
    /// What is shown and bid on it.
    pub plan: Plan,
}

impl PlannedDay {
    /// The day's result by the two rules that ship; refused if the month lacks the day, there is no such category, or the
    /// submission breaks a limit.
    pub(crate) fn assess(&self, settings: &MonthSettings) -> Result<DayResult, Refusal>
        ensures { MatchResult result (λ d. d.figures ≡ planned settings.now.month self.now.day self.now.plan) (DayRefused settings.now.month self.now.day self.now.plan) }
    {
        let day = settings.day(self.day).ok_or(Refusal::NoSuchDay)?;
        let category = category_of(self.plan.category)?;
        let submission = self.plan.submission();
        let record = DayRecord::new(category, &submission)?;
        Ok(SHIPPED_RULES.assess_day(&DatedRecord { day, record }))
    }
}

impl Case<DayReading> for PlannedDay {
    ghost figures_of = { λ d m. planned m d.day d.plan };

    ghost refuses = { λ d m. DayRefused m d.day d.plan };

    fn work(&self, settings: &MonthSettings) -> Result<DayFigures, Refusal> {
        Ok(self.assess(settings)?.figures)
    }
}
