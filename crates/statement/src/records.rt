//! The records of a month file: plain numbers, not yet checked.
use settlement::{MonthTerms, RosterEntry, SubmittedDay};

/// A resource as its record tells it.
#[derive(Clone, Copy, PartialEq, Eq, Debug)]
pub struct NumberedResource {
    /// Its number, counted from 0; where another number is due, the record is refused (43).
    pub number: u32,
    /// Its category and identifier. A category above 3 is refused (10); a wrong number is refused first.
    pub entry: RosterEntry,
}

/// A record of one of the three kinds.
#[derive(Clone, Copy, PartialEq, Eq, Debug)]
pub enum FileRecord {
    /// Kind 1: the terms of the month.
    Month(MonthTerms),
    /// Kind 2: a resource of the month.
    Resource(NumberedResource),
    /// Kind 3: a resource's day, in whole kW.
    Day(SubmittedDay),
}
