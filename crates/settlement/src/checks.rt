//! The tests that a call makes of what it is handed.
ghost use Rattle.std.specs.Prelude.{MatchBool};
ghost use Rattle.settlement.specs.Tables.{RosterFits, DaysFit, EachRowWithin, AllFit};

use crate::tables::{LINES, LineEntry, RosterEntry};
use assessment::{DAY_PLACES, DayResult, DayRow};

/// The most resources that a roster has.
pub(crate) const MOST_RESOURCES: usize = 512;

fn roster_fits(roster: &[RosterEntry]) -> bool
    ensures { MatchBool result (RosterFits roster.now) (RosterFits roster.now → ⊥) }
{
    roster.len() <= MOST_RESOURCES && roster.iter().all(|entry| entry.category().is_ok())
}

/// Whether the roster is within its limits, and the day table has 31 places for each of its resources.
pub(crate) fn days_fit(roster: &[RosterEntry], rows: &[DayRow]) -> bool
    ensures { MatchBool result (DaysFit roster.now rows.now) (DaysFit roster.now rows.now → ⊥) }
{
    roster_fits(roster) && rows.len() == DAY_PLACES * roster.len()
}

fn rows_within(rows: &[DayRow]) -> bool
    ensures { MatchBool result (EachRowWithin rows.now) (EachRowWithin rows.now → ⊥) }
{
    rows.iter().all(|row| DayResult::of_row(*row).is_some())
}

/// The same for a close: the line table has two places a resource, and every row can be a day result.
pub(crate) fn all_fit(roster: &[RosterEntry], rows: &[DayRow], lines: &[LineEntry]) -> bool
    ensures { MatchBool result (AllFit roster.now rows.now lines.now) (AllFit roster.now rows.now lines.now → ⊥) }
{
    days_fit(roster, rows) && lines.len() == LINES * roster.len() && rows_within(rows)
}
