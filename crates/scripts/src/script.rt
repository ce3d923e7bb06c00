//! A script's lines, those that are calls, each with its number; and the run of a script over the book that it names.
use crate::answers;
use crate::books::{BookPlan, Ground, Layers, journal_places};
use crate::calls::{Call, parse};
use crate::desk::Desk;
use crate::line_fault::{LineFault, Stop};
use fund::{BalanceBook, FundBook, Journal, Overlay};
use std::alloc::{AllocError, Global};

/// A line that is neither blank nor a comment.
#[derive(Clone, Copy, PartialEq, Eq, Debug)]
pub struct ScriptLine<'a> {
    /// Counted from 1, over all lines.
    pub number: usize,
    /// The line without its line feed.
    pub text: &'a str,
}

impl ScriptLine<'_> {
    /// The end of the program by a fault of this line.
    pub(crate) fn stop<F: Into<LineFault>>(&self, fault: F) -> Stop {
        Stop::Line(self.number, fault.into())
    }
}

/// A script that is not empty: the line that starts the settlement, and those of the calls made of it.
#[derive(Clone, Copy, PartialEq, Eq, Debug)]
pub struct Script<'a> {
    /// The first of them; a call other than `start` is refused when the script is run.
    pub start: &'a ScriptLine<'a>,
    /// Those after it, in their order.
    pub calls: &'a [ScriptLine<'a>],
}

impl Script<'_> {
    /// The first call says which book the others are made over.
    fn book_plan(&self, heap: Global) -> Result<BookPlan, LineFault> {
        match parse(heap, self.start.text)? {
            Call::Start(plan) => Ok(plan),
            _ => Err(LineFault::StartComesFirst),
        }
    }

    /// Starts a settlement over the book, and makes the script's calls.
    fn drive<B: FundBook + Drop>(
        &self,
        rt: &impl Print,
        heap: Global,
        book: B,
    ) -> Result<(), Stop> {
        let mut desk = Desk::new(heap, book);
        desk.started(rt).map_err(|error| self.start.stop(error))?;
        for line in self.calls {
            desk.follow(rt, heap, line.text)
                .map_err(|fault| line.stop(fault))?;
        }
        Ok(())
    }

    /// The same over the book under its overlays.
    fn drive_under<B: FundBook + Drop>(
        &self,
        rt: &impl Print,
        heap: Global,
        layers: Layers,
        book: B,
    ) -> Result<(), Stop> {
        // The book has another type under each number of overlays.
        match layers {
            Layers::Bare => self.drive(rt, heap, book),
            Layers::Once => self.drive(rt, heap, Overlay::over(book)),
            Layers::Twice => self.drive(rt, heap, Overlay::over(Overlay::over(book))),
        }
    }

    /// A journal that is refused ends the script, with the book's fault told as a settlement's.
    fn drive_journal(
        &self,
        rt: &impl Print,
        heap: Global,
        layers: Layers,
        places: u64,
    ) -> Result<(), Stop> {
        let places = journal_places(heap, places).map_err(|error| self.start.stop(error))?;
        match Journal::over(places) {
            Ok(journal) => self.drive_under(rt, heap, layers, journal),
            Err(refused) => answers::refused(rt, refused.fault.into()).map_err(|error| self
                .start
                .stop(error)),
        }
    }

    /// Starts a settlement over the book that the first call names, and follows the other lines. Ends at the first line that is not
    /// followed; a journal of too few or too many places ends it too, but is answered and is no fault of the line.
    fn run(&self, rt: &impl Print, heap: Global) -> Result<(), Stop> {
        let BookPlan { layers, ground } = self
            .book_plan(heap)
            .map_err(|fault| self.start.stop(fault))?;
        match ground {
            Ground::Balance => self.drive_under(rt, heap, layers, BalanceBook::new()),
            Ground::Journal(places) => self.drive_journal(rt, heap, layers, places),
        }
    }
}

/// Whether a line is blank or a comment.
fn is_passed_over(line: &str) -> bool {
    line.starts_with('#') || line.trim_ascii().is_empty()
}

/// The lines that are neither blank nor a comment, each with its number. Fails where memory runs out.
fn script_lines<'a>(heap: Global, text: &'a str) -> Result<Vec<ScriptLine<'a>>, AllocError> {
    (1..)
        .zip(text.lines())
        .map(|(number, text)| ScriptLine { number, text })
        .filter(|line| !is_passed_over(line.text))
        .collect(heap)
}

/// Drives a settlement by the script, and prints the answer to each call but `roster`, `tables` and `row`, which answer nothing. Stops
/// with an error at the first line that is not followed, where memory runs out and where an answer cannot be printed; the answers
/// before it are printed by then. A journal of too few or too many places is answered with its refusal, and ends the script without
/// an error. A script without a call answers nothing.
pub fn run_script(rt: &impl Print, heap: Global, text: &str) -> Result<(), Stop> {
    let lines = script_lines(heap, text)?;
    match lines.split_first() {
        Some((start, calls)) => Script { start, calls }.run(rt, heap),
        None => Ok(()),
    }
}
