//! What a resource submits for a day, within its limits, and the day of its month that it is for.
ghost use Rattle.std.specs.Prelude.{◌≤◌};
ghost use Rattle.assessment.specs.Records.{ShowingsWithin, BidsWithin, ExemptionsWithin, FlexibleAllowed};

use crate::category::Category;
use crate::settings::TradeDay;
use crate::submission::{DaySubmission, Showing};
use pools::Pool;

/// A resource's day within every limit of a submission. `DayRecord::new` makes it.
#[derive(Clone, Copy, PartialEq, Eq, Debug)]
pub struct DayRecord {
    /// The resource's category in the month of the day.
    pub category: Category,
    /// Showings, exemptions and bids, each 0 to 2,000,000 kW; no exemption above its showing; in category 0 no flexible showing.
    pub submission: DaySubmission,
    ghost showings: { ShowingsWithin submission },
    ghost bids: { BidsWithin submission },
    ghost exemptions: { ExemptionsWithin submission },
    ghost flexible: { FlexibleAllowed category.number submission },
}

/// A day record, on the day of its month that is assessed.
#[derive(Clone, Copy, PartialEq, Eq, Debug)]
pub struct DatedRecord {
    /// The day that is assessed, with its month.
    pub day: TradeDay,
    /// What the resource submits for it.
    pub record: DayRecord,
}

/// The larger of a day's two net showings.
#[derive(Clone, Copy, PartialEq, Eq, Debug)]
pub(crate) struct LargerNet {
    /// In kW, 0 to 2,000,000.
    pub kilowatts: u64,
    ghost within: { kilowatts ≤ 2000000 },
}

impl DayRecord {
    ghost use Rattle.std.specs.Prelude.{◌≡◌};
    ghost use Rattle.assessment.specs.Days.{net, larger_net};
    ghost use Rattle.pools.specs.PerPool.{entry_of};

    /// The pool's net showing: what is shown less what is exempt, 0 to 2,000,000 kW.
    pub(crate) fn net(&self, pool: Pool) -> u32
        ensures is { result ≡ net (entry_of self.now.submission.showings pool) }
        ensures within { result ≤ 2000000 }
    {
        let Showing { shown, exempt } = self.submission.showings.get(pool);
        shown.saturating_sub(exempt)
    }

    /// The larger net showing, also where only one of the pools is assessed.
    pub(crate) fn larger_net(&self) -> LargerNet
        ensures { result.kilowatts ≡ larger_net self.now.submission }
    {
        LargerNet {
            kilowatts: u64::from(self.net(Pool::Generic).max(self.net(Pool::Flexible))),
        }
    }
}
