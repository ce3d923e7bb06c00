//! A month's lines, worked out before anything is written to the caller's table.
ghost use Rattle.std.specs.Prelude.{◌≡◌, ◌≤◌, [], length};
ghost use Rattle.arrayvec.specs.ArrayVec.{array_vec_len};
ghost use Rattle.assessment.specs.Pairs.{rules_of};
ghost use Rattle.pools.specs.PerPool.{entry_of};
ghost use Rattle.pools.specs.declared.pool.Pool.{Pool};
ghost use Rattle.settlement.specs.Closing.{charged_entry, charged_entries, QuantitiesWithin};
ghost use Rattle.settlement.specs.Tables.{DaysFit, EachRowWithin};

use crate::checks::MOST_RESOURCES;
use crate::price::{Price, Rate};
use crate::stage::OpenMonth;
use crate::tables::{LineEntry, RosterEntry};
use arrayvec::ArrayVec;
use assessment::{AvailabilityRule, DAY_PLACES, DayRow, Line, LineState, RulePair};
use pools::{PerPool, Pool};

/// The line with its cents: those at the price if it is charged, else 0.
fn charged(price: Price, line: Line) -> LineEntry
    requires { line.quantity ≤ 58590000000 }
    ensures { result ≡ charged_entry price.cents line }
{
    let cents = match line.state {
        LineState::Charged => Rate::from(price).cents_for(line.quantity),
        LineState::Empty | LineState::Neutral | LineState::Paid => 0,
    };
    LineEntry { line, cents }
}

/// What a month's lines are worked out from: tables that fit, so that every resource has lines.
#[derive(Clone, Copy, PartialEq, Eq, Debug)]
pub(crate) struct MonthTables<'a> {
    /// The month that is closed.
    pub month: &'a OpenMonth,
    /// Its resources, 512 at most, each of a category from 0 to 3.
    pub roster: &'a [RosterEntry],
    /// The day table, 31 rows a resource, each of which can be a day result.
    pub rows: &'a [DayRow],
    ghost fit: { DaysFit roster.now rows.now },
    ghost within: { EachRowWithin rows.now },
}

impl MonthTables<'_> {
    /// Each pool's lines, resource by resource, charged lines with their cents and eligible ones at 0, put into the entries
    /// lent, of which there are none yet.
    pub(crate) fn work_out<G: AvailabilityRule, F: AvailabilityRule>(
        &self,
        rules: &RulePair<G, F>,
        entries: &mut PerPool<ArrayVec<LineEntry, MOST_RESOURCES>>,
    )
        requires { (p : Pool) → (entry_of entries.old p).items ≡ [] }
        ensures is { (p : Pool) → (entry_of entries.new p).items ≡ charged_entries (rules_of G.means F.means rules.now) self.now.month.now.settings.month self.now.month.now.price.cents self.now.roster.now self.now.rows.now p }
        ensures long { (p : Pool) → array_vec_len (entry_of entries.new p) ≡ length self.now.roster.now }
        ensures small { (p : Pool) → QuantitiesWithin (entry_of entries.new p).items }
    {
        let price = self.month.price;
        for (entry, rows) in self.roster.iter().zip(self.rows.chunks_exact(DAY_PLACES)) {
            let category = entry.category().unwrap();
            let lines = rules
                .month_lines(&self.month.settings, category, rows)
                .unwrap();
            for pool in Pool::ALL {
                entries.entry(pool).push(charged(price, lines.get(pool)));
            }
        }
    }
}
