//! A resource's day as it is handed in, in kW: plain numbers, not yet checked.
ghost use Rattle.std.specs.Prelude.{◌≡◌};

use pools::PerPool;
use thiserror::Error;

/// What is offered into a market in an hour, in the two ways of offering.
#[derive(Clone, Copy, PartialEq, Eq, Debug)]
pub struct Bid {
    /// The economic bid, in kW; 0 to 2,000,000 in a day record.
    pub economic: u32,
    /// The self-schedule, in kW; 0 to 2,000,000 in a day record.
    pub self_scheduled: u32,
}

/// An hour's bids in the two markets.
#[derive(Clone, Copy, PartialEq, Eq, Debug)]
pub struct HourBids {
    /// What is offered into the day-ahead market.
    pub day_ahead: Bid,
    /// What is offered into the real-time market.
    pub real_time: Bid,
}

/// The same bid in both markets.
impl From<Bid> for HourBids {
    ghost from_gives = { λ bid bids. (bids.day_ahead ≡ bid) × (bids.real_time ≡ bid) };

    fn from(bid: Bid) -> HourBids {
        HourBids {
            day_ahead: bid,
            real_time: bid,
        }
    }
}

/// The bids of an hour as four numbers in kW: day-ahead, then real-time, each economic and then self-scheduled.
impl From<[u32; 4]> for HourBids {
    ghost use Rattle.assessment.specs.Records.{bids_told};

    ghost from_gives = { λ numbers bids. bids ≡ bids_told numbers };

    fn from(numbers: [u32; 4]) -> HourBids {
        let [de, ds, re, rs] = numbers;
        HourBids {
            day_ahead: Bid {
                economic: de,
                self_scheduled: ds,
            },
            real_time: Bid {
                economic: re,
                self_scheduled: rs,
            },
        }
    }
}

/// The capacity that a resource is shown with in a pool on a day, and the part of it that need not be offered.
#[derive(Clone, Copy, PartialEq, Eq, Debug)]
pub struct Showing {
    /// The capacity shown, in kW; 0 to 2,000,000 in a day record.
    pub shown: u32,
    /// The exemption, in kW; at most what is shown in a day record.
    pub exempt: u32,
}

/// How many hours a day has, each of them with bids.
pub const HOURS: usize = 24;

/// What is submitted for a resource's day. `DayRecord::new` tests it.
#[derive(Clone, Copy, PartialEq, Eq, Debug)]
pub struct DaySubmission {
    /// What is shown and exempt in each pool.
    pub showings: PerPool<Showing>,
    /// The bids by hour ending: the first entry is hour ending 1.
    pub hours: [HourBids; HOURS],
}

/// What a day submission breaks, in the order in which it is tested.
#[derive(Clone, Copy, PartialEq, Eq, Debug, Drop, Error)]
pub enum DayBreach {
    /// A showing, an exemption or a bid, of whatever hour, is above 2,000,000 kW.
    #[error("a showing or bid is over the limit")]
    KilowattsOverLimit,
    /// An exemption is above its showing.
    #[error("an exemption is over its showing")]
    ExemptionOverShowing,
    /// A resource of category 0 shows flexible capacity, be it exempt or not.
    #[error("flexible capacity is shown without a category")]
    FlexibleInCategory0,
}
