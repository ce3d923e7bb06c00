//! Starting a settlement, and opening a month.
ghost use Rattle.std.specs.Prelude.{◌≡◌, MatchBool, MatchOption, OnErr};
ghost use Rattle.settlement.specs.Opening.{started, MayOpen, Follows, TermsWithin, standing_of, Opens};
ghost use Rattle.settlement.specs.Runs.{Run, no_history, OpenGoesOn};
ghost use Rattle.assessment.specs.Pairs.{rules_of};
ghost use Rattle.settlement.specs.Views.{view, phase_of};

use crate::checks::days_fit;
use crate::fault::SettlementFault;
use crate::price::Price;
use crate::settlement::Settlement;
use crate::stage::{OpenMonth, Stage};
use crate::tables::{MonthTerms, RosterEntry};
use assessment::{AvailabilityRule, DayRow, MonthDate, MonthSettings, RulePair, TradeMonth};
use fund::{FundBook, Standing};
use pools::PerPool;

impl Stage {
    /// Whether any month may be opened now: none is open, and no release is due.
    fn may_open(&self) -> bool
        ensures { MatchBool result (MayOpen (phase_of self.now)) (MayOpen (phase_of self.now) → ⊥) }
    {
        match self {
            Stage::Fresh | Stage::Closed(_) => true,
            Stage::Open(_) | Stage::ReleaseDue(_) => false,
        }
    }

    /// Whether the month is the one that may be opened now.
    fn admits(&self, month: &TradeMonth) -> bool
        ensures { MatchBool result (Follows (phase_of self.now) month.now) (Follows (phase_of self.now) month.now → ⊥) }
    {
        match self {
            Stage::Fresh => true,
            Stage::Closed(last) => last.next() == Some(MonthDate::from(month)),
            Stage::Open(_) | Stage::ReleaseDue(_) => false,
        }
    }
}

/// What a month is opened with, within its limits.
#[derive(Clone, Copy, PartialEq, Eq, Debug)]
struct FitTerms {
    month: OpenMonth,
    standing: Standing,
}

/// The terms as values within their limits; None where one of them is outside.
fn fit_terms(terms: &MonthTerms) -> Option<FitTerms>
    ensures { MatchOption result (TermsWithin terms.now → ⊥) (λ o. TermsWithin terms.now × (o.month.settings.month ≡ terms.now.month) × (o.month.price.cents ≡ terms.now.price) × (o.standing ≡ standing_of terms.now.standing)) }
{
    let settings = MonthSettings::new(terms.month)?;
    let price = Price::try_from(terms.price).ok()?;
    let standing = Standing::try_from(terms.standing).ok()?;
    Some(FitTerms {
        month: OpenMonth { settings, price },
        standing,
    })
}

impl<B: FundBook, G: AvailabilityRule, F: AvailabilityRule> Settlement<B, G, F> {
    /// A settlement over the book and by the two rules; no month is open. It stands the book binding, and keeps what each pool
    /// then holds as its opening balance. Nothing is refused.
    pub fn start(mut book: B, rules: RulePair<G, F>) -> Settlement<B, G, F>
        ensures is { view B.state result ≡ started B.means (B.state book) }
        ensures rules { result.rules ≡ rules }
        ensures runs { Run B.means B.sound (rules_of G.means F.means result.rules) (no_history (B.means.binding (B.state book))) (view B.state result) }
    {
        book.stand(Standing::Binding).unwrap();
        let opening = PerPool::of(|pool| book.binding(pool));
        Settlement {
            book,
            rules,
            opening,
            stage: Stage::Fresh,
        }
    }

    /// Opens a month: every place of the day table is empty afterwards, and the book stands as the terms say. Roster and day
    /// table belong to the caller. From here through the close each call is to get them as the last taken call left them: no
    /// call tests this, and the law of `account` speaks of such runs only. Refused, whichever comes first:
    /// `UnfitTables`; `OutOfTurn` where another month is open, or a release comes first; `UnfitTerms`; `NotNextMonth`; and
    /// `NoAdvisoryMonths` of the book.
    pub fn open(
        &mut self,
        terms: &MonthTerms,
        roster: &[RosterEntry],
        rows: &mut [DayRow],
    ) -> Result<(), SettlementFault>
        ensures does { Opens B.means (view B.state self.old) terms.now roster.now rows.old result (view B.state self.new) rows.new }
        ensures same { OnErr result (self.new ≡ self.old) }
        ensures rules { self.new.rules ≡ self.old.rules }
        ensures runs { OpenGoesOn B.means B.sound (rules_of G.means F.means self.old.rules) (view B.state self.old) terms.now roster.now result (rules_of G.means F.means self.new.rules) (view B.state self.new) rows.new }
    {
        if !days_fit(roster, rows) {
            return Err(SettlementFault::UnfitTables);
        }
        if !self.stage.may_open() {
            return Err(SettlementFault::OutOfTurn);
        }
        let FitTerms { month, standing } = fit_terms(terms).ok_or(SettlementFault::UnfitTerms)?;
        if !self.stage.admits(&terms.month) {
            return Err(SettlementFault::NotNextMonth);
        }
        self.book.stand(standing)?;
        self.stage = Stage::Open(month);
        rows.fill(None);
        Ok(())
    }
}
