//! Closing a month: an assessing part, a paying part, and the postings.
ghost use Rattle.std.specs.Prelude.{◌≡◌, ◌*◌, length, OnErr};
ghost use Rattle.settlement.specs.Closing.{LinesClose, Closes};
ghost use Rattle.settlement.specs.Runs.{CloseGoesOn};
ghost use Rattle.assessment.specs.Pairs.{rules_of};
ghost use Rattle.settlement.specs.Views.{view, phase_of, phase_closed};

use crate::checks::all_fit;
use crate::fault::SettlementFault;
use crate::pays::{close_pool, write_table};
use crate::postings::post_month;
use crate::settlement::Settlement;
use crate::stage::Stage;
use crate::tables::{LineEntry, PoolClose, RosterEntry};
use crate::workings::MonthTables;
use arrayvec::ArrayVec;
use assessment::{AvailabilityRule, DECEMBER, DayRow, MonthDate};
use fund::FundBook;
use pools::{PerPool, Pool};

impl Stage {
    /// After a December a release is due.
    fn after_close(month: MonthDate) -> Stage
        ensures { phase_of result ≡ phase_closed month }
    {
        if month.month == DECEMBER {
            Stage::ReleaseDue(month)
        } else {
            Stage::Closed(month)
        }
    }
}

impl<B: FundBook, G: AvailabilityRule, F: AvailabilityRule> Settlement<B, G, F> {
    /// Works out and closes both pools, and writes the line table only when both funds are within the limit.
    fn close_lines(
        &self,
        tables: &MonthTables<'_>,
        lines: &mut [LineEntry],
    ) -> Result<PerPool<PoolClose>, SettlementFault>
        requires fit { length lines.old ≡ 2 * length tables.now.roster.now }
        ensures { LinesClose B.means (rules_of G.means F.means self.now.rules) (B.state self.now.book) tables.now.month.now.settings.month tables.now.month.now.price.cents tables.now.roster.now tables.now.rows.now lines.old result lines.new }
    {
        let price = tables.month.price;
        // An `ArrayVec`, so that a close asks for no memory: want of it is none of its answers. The two are made in their place
        // and lent, since together they take 41 kB, which an answer by value would move.
        let mut entries = PerPool {
            generic: ArrayVec::new(),
            flexible: ArrayVec::new(),
        };
        tables.work_out(&self.rules, &mut entries);
        // Each pool's close writes its entries, and a fault of the first pool must stop the second.
        let pools = PerPool {
            generic: close_pool(&self.book, Pool::Generic, price, &mut entries.generic)?,
            flexible: close_pool(&self.book, Pool::Flexible, price, &mut entries.flexible)?,
        };
        write_table(lines, &entries);
        Ok(pools)
    }

    /// Closes the month: writes its lines, posts each pool's charges and payments, and answers them with the rates. Below four
    /// free places the book is ruled off first, also if nothing is posted. After a December a release is due. Refused,
    /// whichever comes first: `UnfitTables` for tables or rows outside their limits, `OutOfTurn` where no month is open, and
    /// `OverLimit` of a pool whose shown balance and charges together pass `fund::LIMIT`, the generic pool first.
    pub fn close(
        &mut self,
        roster: &[RosterEntry],
        rows: &[DayRow],
        lines: &mut [LineEntry],
    ) -> Result<PerPool<PoolClose>, SettlementFault>
        ensures does { Closes B.means (rules_of G.means F.means self.old.rules) (view B.state self.old) roster.now rows.now lines.old result (view B.state self.new) lines.new }
        ensures same { OnErr result (self.new ≡ self.old) }
        ensures rules { self.new.rules ≡ self.old.rules }
        ensures runs { CloseGoesOn B.means B.sound (rules_of G.means F.means self.old.rules) (view B.state self.old) roster.now rows.now result (rules_of G.means F.means self.new.rules) (view B.state self.new) lines.new }
    {
        if !all_fit(roster, rows, lines) {
            return Err(SettlementFault::UnfitTables);
        }
        let Stage::Open(month) = self.stage else {
            return Err(SettlementFault::OutOfTurn);
        };
        let tables = MonthTables {
            month: &month,
            roster,
            rows,
        };
        let pools = self.close_lines(&tables, lines)?;
        post_month(&mut self.book, pools);
        self.stage = Stage::after_close(MonthDate::from(&month.settings.month));
        Ok(pools)
    }
}
