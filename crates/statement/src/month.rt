//! A month file settled: read, opened, recorded and closed.
ghost use Rattle.std.specs.Prelude.{◌≡◌, ◌≤◌, [], length, drop, IfOk, OnOk};
ghost use Rattle.fund.specs.BalanceBook.{balances_of};
ghost use Rattle.fund.specs.Overlay.{overlaid_of};
ghost use Rattle.settlement.specs.Tables.{DaysFit, EachRowWithin};
ghost use Rattle.settlement.specs.Views.{view};
ghost use Rattle.statement.specs.Answers.{Leaves, Answers};
ghost use Rattle.statement.specs.Files.{records_of, roster_from};
ghost use Rattle.statement.specs.Laws.{ClosedBy};
ghost use Rattle.statement.specs.Months.{roster_part, opened_month, days_recorded, closed_of};
ghost use Rattle.statement.specs.Rosters.{days_offset};
ghost use Rattle.statement.specs.Settling.{open_view, recorded, days_part, told_at, closed_month, settled_from, settled};
ghost use Rattle.statement.specs.declared.reader.TheConstants.{MONTH_BYTES};

use crate::closed_month::{ClosedMonth, MOST_LINES};
use crate::fault::{Located, StatementFault, at_offset};
use crate::reader::{
    DAY_BYTES, MONTH_BYTES, RESOURCE_BYTES, day_record, month_record, roster_record,
};
use crate::roster::{MOST_RESOURCES, Roster};
use arrayvec::ArrayVec;
use assessment::{DAY_PLACES, DayFigures, DayRow, FlexibleRule, GenericRule, SHIPPED_RULES};
use fund::{BalanceBook, Overlay};
use pools::PerPool;
use settlement::{LINES, LineEntry, MonthTerms, Settlement, SettlementFault, SubmittedDay};

/// The most places of a day table.
const MOST_ROWS: usize = DAY_PLACES * MOST_RESOURCES;

/// A month in progress: a settlement over a balance book under the advisory overlay, and what it was opened with. Its day table, with
/// 31 places for each resource of its roster, is lent with each step, since it is too large to be moved.
#[derive(Drop)]
struct MonthInProgress {
    terms: MonthTerms,
    settlement: Settlement<Overlay<BalanceBook>, GenericRule, FlexibleRule>,
    roster: Roster,
    ghost opened: { view (overlaid_of balances_of) settlement ≡ open_view terms },
}

fn read_roster(file: &[u8]) -> Result<Roster, Located<StatementFault>>
    requires { MONTH_BYTES ≤ length file.now }
    ensures value { Answers (roster_part file.now) result (roster_from [] MONTH_BYTES (records_of (drop MONTH_BYTES file.now))) }
    ensures within { IfOk result (λ r. days_offset r ≤ length file.now) }
{
    let mut roster = Roster::empty();
    // `at` is the record's byte offset, at which its fault is told.
    for at in (MONTH_BYTES..file.len()).step_by(RESOURCE_BYTES) {
        let number = roster.entries().len();
        match at_offset(roster_record(&file[at..], number), at)? {
            Some(entry) => at_offset(roster.push(entry), at)?,
            None => return Ok(roster),
        }
    }
    Ok(roster)
}

impl MonthInProgress {
    /// Opens the month, and empties the day table. A fault is told at offset 0, the month record.
    fn open(
        terms: MonthTerms,
        roster: Roster,
        rows: &mut [DayRow],
    ) -> Result<MonthInProgress, Located<StatementFault>>
        requires { DaysFit roster rows.old }
        ensures value { Answers (λ m. record { terms = m.terms; roster = m.roster; rows = rows.new }) result (opened_month terms roster) }
        ensures same { IfOk result (λ m. m.roster ≡ roster) }
        ensures rows { OnOk result (DaysFit roster rows.new × EachRowWithin rows.new) }
    {
        let book = Overlay::over(BalanceBook::new());
        let mut settlement = Settlement::start(book, SHIPPED_RULES);
        at_offset(settlement.open(&terms, roster.entries(), rows), 0)?;
        Ok(MonthInProgress {
            terms,
            settlement,
            roster,
        })
    }

    fn record(&self, rows: &mut [DayRow], day: &SubmittedDay) -> Result<DayFigures, SettlementFault>
        requires fit { DaysFit self.now.roster rows.old }
        requires rows { EachRowWithin rows.old }
        ensures value { Leaves result rows.new (recorded self.now.terms self.now.roster rows.old day.now) }
        ensures rows { EachRowWithin rows.new }
    {
        self.settlement.record(self.roster.entries(), rows, day)
    }

    /// Records the days, which follow the resources.
    fn record_days(&self, rows: &mut [DayRow], file: &[u8]) -> Result<(), Located<StatementFault>>
        requires fit { DaysFit self.now.roster rows.old }
        requires rows { EachRowWithin rows.old }
        requires within { days_offset self.now.roster ≤ length file.now }
        ensures value { Answers (λ _. days_part rows.new (length file.now)) result (days_recorded (record { terms = self.now.terms; roster = self.now.roster; rows = rows.old }) file.now) }
        ensures rows { EachRowWithin rows.new }
    {
        // `at` is the record's byte offset, at which its fault is told.
        for at in (self.roster.end()..file.len()).step_by(DAY_BYTES) {
            let day = at_offset(day_record(&file[at..]), at)?;
            at_offset(self.record(rows, &day), at)?;
        }
        Ok(())
    }

    /// Closes the month, and looks up what the pools then show. A fault is told at the byte offset handed in.
    fn close(self, rows: &[DayRow], offset: usize) -> Result<ClosedMonth, Located<StatementFault>>
        requires fit { DaysFit self.roster rows.now }
        requires rows { EachRowWithin rows.now }
        ensures value { Answers closed_of result (told_at offset (closed_month self.terms self.roster rows.now)) }
        ensures closed { IfOk result (λ x. ClosedBy (closed_of x)) }
    {
        let MonthInProgress {
            terms,
            mut settlement,
            roster,
        } = self;
        let standing = settlement.standing();
        let mut lines = ArrayVec::from([LineEntry::default(); MOST_LINES]);
        lines.truncate(LINES * roster.entries().len());
        let pools = at_offset(settlement.close(roster.entries(), rows, &mut lines), offset)?;
        Ok(ClosedMonth {
            terms,
            standing,
            lines,
            pools,
            shown: PerPool::of(|pool| settlement.account(pool).balances.shown),
        })
    }
}

/// Opens the month, records its days and closes it. The day table lies here, so that a file refused before pays nothing for it.
fn settle_days(
    file: &[u8],
    terms: MonthTerms,
    roster: Roster,
) -> Result<ClosedMonth, Located<StatementFault>>
    requires { days_offset roster ≤ length file.now }
    ensures value { Answers closed_of result (settled_from terms (roster_part file.now roster)) }
    ensures closed { IfOk result (λ x. ClosedBy (closed_of x)) }
{
    let mut places = [None; MOST_ROWS];
    let rows = &mut places[..DAY_PLACES * roster.entries().len()];
    let month = MonthInProgress::open(terms, roster, rows)?;
    month.record_days(rows, file)?;
    month.close(rows, file.len())
}

/// The month that the file tells, closed; or the first fault.
pub(crate) fn settle_month(file: &[u8]) -> Result<ClosedMonth, Located<StatementFault>>
    ensures value { Answers closed_of result (settled file.now) }
    ensures closed { IfOk result (λ x. ClosedBy (closed_of x)) }
{
    let terms = at_offset(month_record(file), 0)?;
    let roster = read_roster(file)?;
    settle_days(file, terms, roster)
}
