//! The resources of a month file: up to 64, numbered from 0 in their order.
ghost use Rattle.std.specs.Prelude.{◌≤◌, List, length};
ghost use Rattle.settlement.specs.Tables.{RosterFits};
ghost use Rattle.settlement.specs.declared.tables.RosterEntry.{RosterEntry};
ghost use Rattle.statement.specs.declared.roster.TheConstants.{MOST_RESOURCES};

use arrayvec::ArrayVec;
use settlement::RosterEntry;
use std::marker::Model;

mod entries;

/// The most resources of a month file: fewer than the 512 that a settlement takes.
pub(crate) const MOST_RESOURCES: usize = 64;

/// Up to 64 resources, each at the place of its number, of a category up to 3.
#[derive(Debug, Drop)]
pub(crate) struct Roster {
    entries: ArrayVec<RosterEntry, MOST_RESOURCES>,
}

/// Contracts see the resources.
impl Model for Roster {
    ghost Value = { List RosterEntry };

    ghost view = { λ r. r.entries.items };

    ghost invariant = { λ r. (length r.entries.items ≤ MOST_RESOURCES) × RosterFits r.entries.items };
}
