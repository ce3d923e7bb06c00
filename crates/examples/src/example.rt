//! A published example: what is worked, and what is read from that.
ghost use Rattle.std.specs.Prelude.{◌≡◌, MatchResult};
ghost use Rattle.assessment.specs.declared.trade_month.TradeMonth.{TradeMonth};
ghost use Rattle.examples.specs.declared.refusal.Refusal.{Refusal};

use crate::comparison::{Comparison, Published};
use crate::reading::Reading;
use crate::refusal::Refusal;
use assessment::{MonthSettings, TradeMonth};

/// What an example works through the library: a day, or a month.
pub trait Case<R: Reading> {
    /// What working the example in a month has to give.
    ghost figures_of: { Self → TradeMonth → R.Worked };

    /// Why the example gives nothing in a month.
    ghost refuses: { Self → TradeMonth → Refusal → Type 0 };

    /// What the library gives for the example in this month, or why it gives nothing.
    fn work(&self, settings: &MonthSettings) -> Result<R::Worked, Refusal>
        ensures { MatchResult result (λ w. w ≡ figures_of self.now settings.now.month) (refuses self.now settings.now.month) };
}

/// A figure that is read from a worked example, and those that it has to agree with.
pub struct Check<R: Reading> {
    /// The pool whose figure is read, or both.
    pub part: R::Part,
    /// Which of its figures is read.
    pub reading: R,
    /// What the rules give exactly, in the reading's unit: W, days, or millionths of a whole.
    pub exact: u64,
    /// What was published, if anything was.
    pub published: Option<Published>,
}

impl<R: Reading> Check<R> {
    /// The figure that is read, beside those that it must agree with; refused where it cannot be read.
    pub(crate) fn compare(&self, worked: &R::Worked) -> Result<Comparison, Refusal>
        ensures { MatchResult result
            (λ c. c ≡ record { figure = R.figure_of worked.now self.now.part self.now.reading; exact = self.now.exact; published = self.now.published })
            (R.refuses worked.now self.now.part) }
    {
        Ok(Comparison {
            figure: self.reading.read(worked, self.part)?,
            exact: self.exact,
            published: self.published,
        })
    }
}

/// An example as it is printed: its name, a row for each check, and its note.
pub struct Example<C: 'static, R: Reading + 'static> {
    /// The row printed above its figures.
    pub name: &'static str,
    /// The month that it is assessed in.
    pub month: TradeMonth,
    /// The day or the month of a resource that is worked.
    pub case: C,
    /// What is read, in the order of printing.
    pub checks: &'static [Check<R>],
    /// What is printed below the figures, if anything is.
    pub note: Option<&'static str>,
}
