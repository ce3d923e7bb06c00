//! A roster that grows by one resource at a time.
ghost use Rattle.std.specs.Prelude.{◌≡◌, ◌≤◌, [], length};
ghost use Rattle.settlement.specs.Tables.{RosterFits};
ghost use Rattle.statement.specs.Answers.{Leaves};
ghost use Rattle.statement.specs.Rosters.{days_offset, enrolled};

use super::{MOST_RESOURCES, Roster};
use crate::reader::{MONTH_BYTES, RESOURCE_BYTES};
use arrayvec::ArrayVec;
use settlement::{RosterEntry, SettlementFault};

impl Roster {
    /// No resources, and room for 64.
    pub(crate) fn empty() -> Roster
        ensures { result ≡ [] }
    {
        Roster {
            entries: ArrayVec::new(),
        }
    }

    /// The resources, by number.
    pub(crate) fn entries(&self) -> &[RosterEntry]
        ensures value { result.now ≡ self.now }
        ensures within { length self.now ≤ MOST_RESOURCES }
        ensures fits { RosterFits self.now }
    {
        self.entries.as_slice()
    }

    /// The byte offset after the resources.
    pub(crate) fn end(&self) -> usize
        ensures { result ≡ days_offset self.now }
    {
        MONTH_BYTES + RESOURCE_BYTES * self.entries.len()
    }

    /// Adds the next resource. Refuses a 65th, and a category above 3 (10).
    pub(crate) fn push(&mut self, entry: RosterEntry) -> Result<(), SettlementFault>
        ensures { Leaves result self.new (enrolled self.old entry) }
    {
        if self.entries.len() >= MOST_RESOURCES || entry.category().is_err() {
            return Err(SettlementFault::UnfitTables);
        }
        self.entries.push(entry);
        Ok(())
    }
}
