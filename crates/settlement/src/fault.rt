//! Why a settlement refuses a call.
ghost use Rattle.std.specs.Prelude.{◌≡◌, Some};
ghost use Rattle.settlement.specs.Faults.{day_words, place_words};
ghost use Rattle.settlement.specs.declared.fault.SettlementFault.TheVariants.{Book};

use fund::BookFault;
use pools::Pool;
use std::fmt;
use thiserror::Error;

/// A resource's day, by number. It may be one that roster or month lacks.
#[derive(Clone, Copy, PartialEq, Eq, Debug)]
pub struct ResourceDay {
    /// The resource's place in the roster, 0 to 511 where the roster has it.
    pub resource: u32,
    /// The day of the month, 1 to 31 where the month has it.
    pub day: u32,
}

impl fmt::Display for ResourceDay {
    ghost output = { λ at. Some (day_words at) };

    fn fmt<W: fmt::Write>(&self, f: &mut fmt::Formatter<W>) -> fmt::Result {
        write!(f, "resource {}, day {}", self.resource, self.day)
    }
}

/// Why a settlement refuses a call; settlement, book and tables are then as they were. Each has the number that its label
/// tells.
#[derive(Clone, Copy, PartialEq, Eq, Debug, Drop, Error)]
pub enum SettlementFault {
    /// 10: a roster of more than 512 resources or with a category above 3, or a table whose length does not suit the roster;
    /// from a close also figures that no day result can have.
    #[error("the roster or a table is outside its limits")]
    UnfitTables,
    /// 11: a record or a close without an open month, an open beside one or before a release that is due, or a release that is
    /// not due.
    #[error("it is not this call's turn")]
    OutOfTurn,
    /// 12: the month, its marks or windows, the price or the standing is outside its limits.
    #[error("the terms of the month are outside their limits")]
    UnfitTerms,
    /// 13: the month to be opened does not follow the last one closed.
    #[error("the month is not the next one")]
    NotNextMonth,
    /// 15: no load entries or more than 64, a load above 1,000,000 GWh, or nothing but loads of 0.
    #[error("the loads are outside their limits")]
    UnfitLoads,
    /// 16: the roster has no such resource.
    #[error("{0}: the roster lacks the resource")]
    UnknownResource(ResourceDay),
    /// 17: the month has no such day.
    #[error("{0}: the month lacks the day")]
    NoSuchDay(ResourceDay),
    /// 18: the day table has figures of that day.
    #[error("{0}: the day is recorded already")]
    AlreadyRecorded(ResourceDay),
    /// 19: a showing, bid or exemption above 2,000,000 kW, or an exemption above its showing.
    #[error("{0}: a showing, bid or exemption is over its limit")]
    DayOverLimit(ResourceDay),
    /// 20: a resource of category 0 shows flexible capacity, exempt or not.
    #[error("{0}: flexible capacity is shown in category 0")]
    FlexibleInCategory0(ResourceDay),
    /// The book's own fault, 30 to 34: here 32 from a close, and 34 from an open.
    #[error(transparent)]
    Book(BookFault),
}

/// What a fault is about: a pool, or a resource's day.
#[derive(Clone, Copy, PartialEq, Eq, Debug)]
pub enum FaultPlace {
    /// The pool of a book's fault.
    Pool(Pool),
    /// The day that `record` was handed.
    Day(ResourceDay),
}

/// As it stands in a label: a day by its numbers alone.
impl fmt::Display for FaultPlace {
    ghost output = { λ p. Some (place_words p) };

    fn fmt<W: fmt::Write>(&self, f: &mut fmt::Formatter<W>) -> fmt::Result {
        match self {
            FaultPlace::Pool(pool) => write!(f, "{pool}"),
            FaultPlace::Day(at) => write!(f, "{} {}", at.resource, at.day),
        }
    }
}

/// A book's fault as a settlement's.
// By hand: contracts name the case that `?` makes, and a derived conversion has no contract.
impl From<BookFault> for SettlementFault {
    ghost from_gives = { λ e r. r ≡ Book e };

    fn from(e: BookFault) -> SettlementFault {
        SettlementFault::Book(e)
    }
}
