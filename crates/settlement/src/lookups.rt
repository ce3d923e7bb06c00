//! What is looked up in a settlement. A lookup changes nothing.
ghost use Rattle.std.specs.Prelude.{◌≡◌};
ghost use Rattle.pools.specs.PerPool.{entry_of};
ghost use Rattle.settlement.specs.Accounts.{AccountantsLaw};
ghost use Rattle.assessment.specs.Pairs.{rules_of};
ghost use Rattle.settlement.specs.Views.{view};

use crate::settlement::Settlement;
use crate::stage::Stage;
use assessment::AvailabilityRule;
use fund::{Account, FundBook, Standing, account_of};
use pools::Pool;

/// A pool's balances, in cents: what it held when the settlement was started, and what the book holds and shows now.
#[derive(Clone, Copy, PartialEq, Eq, Debug)]
pub struct PoolAccount {
    /// The binding balance when the settlement was started, in cents, 0 to `fund::LIMIT`.
    pub opening: u64,
    /// What the book holds and shows now, in cents.
    pub balances: Account,
}

impl<B: FundBook, G: AvailabilityRule, F: AvailabilityRule> Settlement<B, G, F> {
    /// The balances of a pool, in cents. The contract adds the accountant's law of every run that ends here.
    pub fn account(&self, pool: Pool) -> PoolAccount
        ensures opening { result.opening ≡ entry_of self.now.opening pool }
        ensures binding { result.balances.binding ≡ B.means.binding (B.state self.now.book) pool }
        ensures shown { result.balances.shown ≡ B.means.shown (B.state self.now.book) pool }
        ensures law { AccountantsLaw B.means B.sound (rules_of G.means F.means self.now.rules) (view B.state self.now) }
    {
        PoolAccount {
            opening: self.opening.get(pool),
            balances: account_of(&self.book, pool),
        }
    }

    /// The standing of the book: binding at first and after a release, else that of the month opened last.
    pub fn standing(&self) -> Standing
        ensures { result ≡ B.means.standing (B.state self.now.book) }
    {
        self.book.standing()
    }

    /// How many places for postings are free in the book.
    pub fn free_places(&self) -> usize
        ensures { result ≡ B.means.free (B.state self.now.book) }
    {
        self.book.free_places()
    }

    /// What is open, and what is due.
    pub fn stage(&self) -> Stage
        ensures { result ≡ self.now.stage }
    {
        self.stage
    }
}
