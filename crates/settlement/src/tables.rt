//! What is handed in with a call: plain entries, checked before they are used.
ghost use Rattle.std.specs.Prelude.{◌≡◌, ◌<◌, MatchResult};
ghost use Rattle.settlement.specs.Tables.{pool_at};

use crate::fault::ResourceDay;
use assessment::{Category, DaySubmission, Line, TradeMonth};
use pools::{OutOfRange, PerPool, Pool};

/// A resource of the month, by its place in the roster.
#[derive(Clone, Copy, Default, PartialEq, Eq, Debug)]
pub struct RosterEntry {
    /// The caller's own number for the resource: any, and nothing is worked out from it.
    pub identifier: u32,
    /// The kind of its flexible capacity, 0 to 3. A number, since one above 3 is refused (10).
    pub category: u32,
}

impl RosterEntry {
    /// Its category of flexible capacity, if the number is one; a number above 3 is handed back.
    pub fn category(&self) -> Result<Category, OutOfRange>
        ensures { MatchResult result (λ c. c.number ≡ self.now.category) (λ e. (e.0 ≡ self.now.category) × (3 < self.now.category)) }
    {
        Category::try_from(self.category)
    }
}

/// What a month is opened with: plain numbers, since one past its limits is refused only after other tests.
#[derive(Clone, Copy, PartialEq, Eq, Debug)]
pub struct MonthTerms {
    /// Year, month, holiday marks and window starts.
    pub month: TradeMonth,
    /// Cents for a megawatt and month, 0 to 500,000.
    pub price: u32,
    /// 0 binding, 1 advisory.
    pub standing: u32,
}

/// A resource's day, and what is submitted for it.
#[derive(Clone, Copy, PartialEq, Eq, Debug)]
pub struct SubmittedDay {
    /// Whose day it is, and which.
    pub at: ResourceDay,
    /// Its showings, exemptions and bids, in kW, 0 to 2,000,000 each.
    pub submission: DaySubmission,
}

/// An entry of the line table: a line with what is charged or paid for it.
#[derive(Clone, Copy, Default, PartialEq, Eq, Debug)]
pub struct LineEntry {
    /// A resource's month in one pool.
    pub line: Line,
    /// Cents, 0 to `fund::LIMIT` as a close writes them: the charge of a charged line, the payment of a paid one, else 0.
    pub cents: u64,
}

/// How many places of the line table a resource has: one in each pool.
pub const LINES: usize = Pool::ALL.len();

/// The pool of a place of the line table: two places a resource, generic first.
pub fn pool_at(place: usize) -> Pool
    ensures { result ≡ pool_at place }
{
    Pool::ALL[place % LINES]
}

/// One of the parties that a year's remaining fund is paid out to.
#[derive(Clone, Copy, PartialEq, Eq, Debug)]
pub struct LoadEntry {
    /// Its load in GWh, 0 to 1,000,000.
    pub load: u64,
    /// Its share of each pool's balance, in cents, 0 to that balance. A release writes it, whatever stood there.
    pub shares: PerPool<u64>,
}

/// What a close comes to in a pool.
#[derive(Clone, Copy, PartialEq, Eq, Debug)]
pub struct PoolClose {
    /// What its charged lines are charged, in cents, 0 to `fund::LIMIT`.
    pub charges: u64,
    /// Cents for a megawatt and month that eligible lines are paid, 0 to 1,500,000.
    pub rate: u64,
    /// What its eligible lines are paid, in cents, 0 to `fund::LIMIT`: no more than shown balance and charges together.
    pub payments: u64,
}
