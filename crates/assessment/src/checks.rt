//! The check that turns a day submission into a day record.
ghost use Rattle.std.specs.Prelude.{◌≡◌, ◌≤◌, MatchBool, MatchResult};
ghost use Rattle.assessment.specs.Records.{HourWithin, ShowingWithin, ShowingsWithin, BidsWithin, ExemptionsWithin, Breaks};

use crate::category::Category;
use crate::day_record::DayRecord;
use crate::submission::{Bid, DayBreach, DaySubmission, HourBids, Showing};
use pools::Pool;

const MOST_KILOWATTS: u32 = 2_000_000;

fn bid_within(bid: Bid) -> bool
    ensures { MatchBool result ((bid.economic ≤ 2000000) × (bid.self_scheduled ≤ 2000000)) ((bid.economic ≤ 2000000) × (bid.self_scheduled ≤ 2000000) → ⊥) }
{
    bid.economic <= MOST_KILOWATTS && bid.self_scheduled <= MOST_KILOWATTS
}

fn hour_within(bids: &HourBids) -> bool
    ensures { MatchBool result (HourWithin bids.now) (HourWithin bids.now → ⊥) }
{
    bid_within(bids.day_ahead) && bid_within(bids.real_time)
}

fn bids_within(submission: &DaySubmission) -> bool
    ensures { MatchBool result (BidsWithin submission.now) (BidsWithin submission.now → ⊥) }
{
    submission.hours.iter().all(hour_within)
}

fn showing_within(showing: Showing) -> bool
    ensures { MatchBool result (ShowingWithin showing) (ShowingWithin showing → ⊥) }
{
    showing.shown <= MOST_KILOWATTS && showing.exempt <= MOST_KILOWATTS
}

fn showings_within(submission: &DaySubmission) -> bool
    ensures { MatchBool result (ShowingsWithin submission.now) (ShowingsWithin submission.now → ⊥) }
{
    Pool::ALL
        .iter()
        .all(|pool| showing_within(submission.showings.get(*pool)))
}

fn exemptions_within(submission: &DaySubmission) -> bool
    ensures { MatchBool result (ExemptionsWithin submission.now) (ExemptionsWithin submission.now → ⊥) }
{
    Pool::ALL.iter().all(|pool| {
        let showing = submission.showings.get(*pool);
        showing.exempt <= showing.shown
    })
}

impl DayRecord {
    /// The day of a resource of this category, or the first limit that it breaks, in the order of `DayBreach`.
    /// All 24 hours are tested, whether assessed or not.
    pub fn new(category: Category, submission: &DaySubmission) -> Result<DayRecord, DayBreach>
        ensures { MatchResult result (λ d. (d.submission ≡ submission.now) × (d.category ≡ category)) (Breaks category.number submission.now) }
    {
        if !showings_within(submission) || !bids_within(submission) {
            return Err(DayBreach::KilowattsOverLimit);
        }
        if !exemptions_within(submission) {
            return Err(DayBreach::ExemptionOverShowing);
        }
        if category.number == 0 && submission.showings.flexible.shown != 0 {
            return Err(DayBreach::FlexibleInCategory0);
        }
        Ok(DayRecord {
            category,
            submission: *submission,
        })
    }
}
