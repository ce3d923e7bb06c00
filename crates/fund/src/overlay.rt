//! The advisory overlay: over any other book, it keeps the balances of an advisory month to itself.
ghost use Rattle.std.specs.Prelude.{◌≡◌};
ghost use Rattle.fund.specs.Overlay.{Overlaid, OverlaidSound, overlaid_of, over, overlay_book, IsABook, LowerStaysBinding, LowerUntouched};
ghost use Rattle.fund.specs.Overlaid.{overlay_lawful};
ghost use Rattle.std.proofs.Common.{rules};

use crate::balance::Balance;
use crate::book::FundBook;
use crate::fault::BookFault;
use crate::standing::Standing;
use pools::{PerPool, Pool};

/// A fund book over another, the lower book, which it keeps binding. In an advisory month it shows entries of its own, else the
/// lower book. It takes advisory months, whatever the lower book takes.
#[derive(Drop)]
pub struct Overlay<B: FundBook> {
    lower: B,
    /// The shown balances of an advisory month; None in binding standing.
    entries: Option<PerPool<Balance>>,
}

impl<B: FundBook> Overlay<B> {
    /// An overlay over the book, which it stands binding. No book refuses that.
    #[tactic(auto, using(crate::specs::Overlaid::overlay_lawful, crate::specs::Overlaid::lower_stays_binding, crate::specs::Overlaid::lower_untouched))]
    pub fn over(mut lower: B) -> Overlay<B>
        ensures made { overlaid_of B.state result ≡ over B.means (B.state lower) }
        ensures book { IsABook B.means B.sound }
        ensures twice { IsABook (overlay_book B.means) (OverlaidSound B.sound) }
        ensures binding { LowerStaysBinding B.means B.sound }
        ensures untouched { LowerUntouched B.means }
    {
        lower.stand(Standing::Binding).unwrap();
        Overlay {
            lower,
            entries: None,
        }
    }
}

impl<B: FundBook> FundBook for Overlay<B> {
    ghost State = { Overlaid B.FundBook.State };

    ghost means = { overlay_book B.FundBook.means };

    ghost sound = { OverlaidSound B.FundBook.sound };

    ghost state = { overlaid_of B.FundBook.state };

    ghost lawful = { overlay_lawful _ _ B.FundBook.lawful };

    ghost real = { Prim.search rules };

    fn binding(&self, pool: Pool) -> u64 {
        self.lower.binding(pool)
    }

    fn shown(&self, pool: Pool) -> u64 {
        match &self.entries {
            None => self.lower.shown(pool),
            Some(entries) => entries.get(pool).cents(),
        }
    }

    fn standing(&self) -> Standing {
        match self.entries {
            // The lower book is binding in every run, but the type does not say so.
            None => self.lower.standing(),
            Some(_) => Standing::Advisory,
        }
    }

    fn size(&self) -> usize {
        self.lower.size()
    }

    fn free_places(&self) -> usize {
        match self.entries {
            None => self.lower.free_places(),
            Some(_) => self.lower.size(),
        }
    }

    fn takes_advisory(&self) -> bool {
        true
    }

    fn stand(&mut self, standing: Standing) -> Result<(), BookFault> {
        match standing {
            Standing::Binding => {
                // Stood again, as the state led to is named by the lower book, which may have other places then.
                self.lower.stand(Standing::Binding)?;
                self.entries = None;
            }
            Standing::Advisory => {
                let shown = |pool| Balance::new(self.lower.shown(pool));
                self.entries.get_or_insert_with(|| PerPool::of(shown));
            }
        }
        Ok(())
    }

    fn post_in(&mut self, pool: Pool, amount: u64) -> Result<(), BookFault> {
        match &mut self.entries {
            None => self.lower.post_in(pool, amount),
            Some(entries) => entries.entry(pool).post_in(pool, amount),
        }
    }

    fn post_out(&mut self, pool: Pool, amount: u64) -> Result<(), BookFault> {
        match &mut self.entries {
            None => self.lower.post_out(pool, amount),
            Some(entries) => entries.entry(pool).post_out(pool, amount),
        }
    }

    fn rule_off(&mut self) {
        if self.entries.is_none() {
            self.lower.rule_off();
        }
    }
}
