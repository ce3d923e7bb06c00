//! The balance book: nothing but a balance for each pool, so that it always has places.
ghost use Rattle.std.specs.Prelude.{◌≡◌};
ghost use Rattle.fund.specs.Balances.{Balances, Within};
ghost use Rattle.fund.specs.BalanceBook.{balances_of, balance_book, no_money};
ghost use Rattle.fund.specs.BalanceBookLemmas.{balance_lawful};
ghost use Rattle.std.proofs.Common.{rules};

use crate::balance::Balance;
use crate::book::FundBook;
use crate::fault::BookFault;
use crate::standing::Standing;
use pools::{PerPool, Pool};

/// The size that the book tells, the least that any book has. As many places are always free.
const SIZE: usize = 8;

/// A fund book that refuses no posting for want of a place. It takes no advisory months.
#[derive(Drop)]
pub struct BalanceBook {
    balances: PerPool<Balance>,
}

impl BalanceBook {
    /// A book that holds no money.
    pub fn new() -> BalanceBook
        ensures { balances_of result ≡ no_money }
    {
        BalanceBook {
            balances: PerPool::of(|_| Balance::new(0)),
        }
    }
}

impl FundBook for BalanceBook {
    ghost State = { Balances };

    ghost means = { balance_book };

    ghost sound = { Within };

    ghost state = { balances_of };

    ghost lawful = { balance_lawful };

    ghost real = { Prim.search rules };

    fn binding(&self, pool: Pool) -> u64 {
        self.balances.get(pool).cents()
    }

    fn shown(&self, pool: Pool) -> u64 {
        self.binding(pool)
    }

    fn standing(&self) -> Standing {
        Standing::Binding
    }

    fn size(&self) -> usize {
        SIZE
    }

    fn free_places(&self) -> usize {
        SIZE
    }

    fn takes_advisory(&self) -> bool {
        false
    }

    fn stand(&mut self, standing: Standing) -> Result<(), BookFault> {
        standing.only_binding()
    }

    fn post_in(&mut self, pool: Pool, amount: u64) -> Result<(), BookFault> {
        self.balances.entry(pool).post_in(pool, amount)
    }

    fn post_out(&mut self, pool: Pool, amount: u64) -> Result<(), BookFault> {
        self.balances.entry(pool).post_out(pool, amount)
    }

    fn rule_off(&mut self) {}
}
