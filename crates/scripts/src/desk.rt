//! A settlement with the roster and the tables that its calls are handed.
use crate::answers;
use crate::calls::{Call, PlacedRow, TableLengths, parse};
use crate::line_fault::LineFault;
use assessment::{DAY_PLACES, DayRow, FlexibleRule, GenericRule, SHIPPED_RULES};
use fund::FundBook;
use settlement::{
    LINES, LineEntry, LoadEntry, MonthTerms, RosterEntry, Settlement, SettlementFault, SubmittedDay,
};
use std::alloc::{AllocError, Global};
use std::io;

/// Prints what a call gave, or why it was refused.
fn answer<T, F: FnOnce(T) -> io::Result<()>>(
    rt: &impl Print,
    given: Result<T, SettlementFault>,
    print: F,
) -> io::Result<()>
    requires { (x : T) → F.pre print x }
{
    match given {
        Ok(value) => print(value),
        Err(fault) => answers::refused(rt, fault),
    }
}

/// A settlement, and the roster, day table and line table that are handed in with its calls.
#[derive(Drop)]
pub struct Desk<B: FundBook> {
    settlement: Settlement<B, GenericRule, FlexibleRule>,
    roster: Vec<RosterEntry>,
    rows: Vec<DayRow>,
    lines: Vec<LineEntry>,
}

impl<B: FundBook + Drop> Desk<B> {
    /// A settlement started over the book; the roster and both tables are empty.
    pub(crate) fn new(heap: Global, book: B) -> Desk<B> {
        Desk {
            settlement: Settlement::start(book, SHIPPED_RULES),
            roster: Vec::new(heap),
            rows: Vec::new(heap),
            lines: Vec::new(heap),
        }
    }

    fn set_tables(&mut self, heap: Global, days: usize, lines: usize) -> Result<(), AllocError> {
        self.rows = vec![in heap; None; days]?;
        self.lines = vec![in heap; LineEntry::default(); lines]?;
        Ok(())
    }

    fn set_roster(&mut self, heap: Global, roster: Vec<RosterEntry>) -> Result<(), AllocError> {
        let resources = roster.len();
        self.roster = roster;
        self.set_tables(
            heap,
            resources.saturating_mul(DAY_PLACES),
            resources.saturating_mul(LINES),
        )
    }

    fn put_row(&mut self, placed: PlacedRow) -> Result<(), LineFault> {
        // `as` loses nothing: any u32 fits a usize.
        let place = self
            .rows
            .get_mut(placed.place as usize)
            .ok_or(LineFault::NoSuchPlace)?;
        *place = placed.row;
        Ok(())
    }

    fn open(&mut self, rt: &impl Print, terms: &MonthTerms) -> io::Result<()> {
        let opened = self
            .settlement
            .open(terms, self.roster.as_slice(), self.rows.as_mut_slice());
        answer(rt, opened, |()| answers::taken(rt))
    }

    fn record(&mut self, rt: &impl Print, day: &SubmittedDay) -> io::Result<()> {
        let recorded = self
            .settlement
            .record(self.roster.as_slice(), self.rows.as_mut_slice(), day);
        answer(rt, recorded, |figures| answers::recorded(rt, &figures))
    }

    fn close(&mut self, rt: &impl Print) -> io::Result<()> {
        let closed = self.settlement.close(
            self.roster.as_slice(),
            self.rows.as_slice(),
            self.lines.as_mut_slice(),
        );
        answer(
            rt,
            closed,
            |pools| answers::closed(rt, self.lines.as_slice(), &pools),
        )
    }

    fn release(&mut self, rt: &impl Print, mut loads: Vec<LoadEntry>) -> io::Result<()> {
        let released = self.settlement.release(loads.as_mut_slice());
        answer(rt, released, |()| answers::released(rt, loads.as_slice()))
    }

    fn fund(&self, rt: &impl Print) -> io::Result<()> {
        answers::fund(rt, &self.settlement)
    }

    /// Makes a call; the three that set up what later calls are handed answer nothing.
    fn call(&mut self, rt: &impl Print, heap: Global, call: Call) -> Result<(), LineFault> {
        match call {
            Call::Start(_) => return Err(LineFault::StartComesOnce),
            Call::Roster(roster) => return Ok(self.set_roster(heap, roster)?),
            Call::Tables(TableLengths { days, lines }) => {
                // `as` loses nothing: any u32 fits a usize.
                return Ok(self.set_tables(heap, days as usize, lines as usize)?);
            }
            Call::Row(placed) => return self.put_row(placed),
            Call::Open(terms) => self.open(rt, &terms)?,
            Call::Record(day) => self.record(rt, &day)?,
            Call::Close => self.close(rt)?,
            Call::Release(loads) => self.release(rt, loads)?,
        }
        Ok(self.fund(rt)?)
    }

    /// Answers the call that started the settlement. Fails only where the output cannot be written.
    pub(crate) fn started(&self, rt: &impl Print) -> io::Result<()> {
        answers::taken(rt)?;
        self.fund(rt)
    }

    /// Makes the call that the line is, and answers it; a call that the settlement refuses is answered too. Refuses a line that is
    /// no call, a second `start`, and a row past the day table; fails where memory runs out or the output cannot be written.
    pub(crate) fn follow(
        &mut self,
        rt: &impl Print,
        heap: Global,
        line: &str,
    ) -> Result<(), LineFault> {
        self.call(rt, heap, parse(heap, line)?)
    }
}
