//! What postings do to one balance.
ghost use Rattle.std.specs.Prelude.{◌≡◌, ◌+◌, ◌-◌, ◌≤◌, ◌↔◌, IsOk, OnOk, OnErr, IfErr};
ghost use Rattle.fund.specs.Balances.{limit};
ghost use Rattle.fund.specs.declared.fault.BookFault.TheVariants.{OverLimit, AboveBalance};

use crate::balance::Balance;
use crate::book::LIMIT;
use crate::fault::BookFault;
use pools::Pool;

impl Balance {
    /// A balance of so many cents, within the limit.
    pub(crate) fn new(cents: u64) -> Balance
        requires { cents ≤ limit }
        ensures { result.cents ≡ cents }
    {
        Balance { cents }
    }

    /// Its cents, 0 to `LIMIT`.
    pub(crate) fn cents(self) -> u64
        ensures value { result ≡ self.cents }
        ensures within { result ≤ limit }
    {
        self.cents
    }

    /// Adds an amount in cents. Refused with `OverLimit` of the pool where the balance would pass the limit.
    pub(crate) fn post_in(&mut self, pool: Pool, amount: u64) -> Result<(), BookFault>
        ensures taken { IsOk result ↔ (self.old.cents + amount ≤ limit) }
        ensures raised { OnOk result (self.new.cents ≡ self.old.cents + amount) }
        ensures fault { IfErr result (λ e. e ≡ OverLimit pool) }
        ensures unchanged { OnErr result (self.new ≡ self.old) }
    {
        if amount > LIMIT - self.cents {
            return Err(BookFault::OverLimit(pool));
        }
        self.cents += amount;
        Ok(())
    }

    /// Takes an amount in cents off. Refused with `AboveBalance` of the pool where it is more than the balance.
    pub(crate) fn post_out(&mut self, pool: Pool, amount: u64) -> Result<(), BookFault>
        ensures taken { IsOk result ↔ (amount ≤ self.old.cents) }
        ensures lowered { OnOk result (self.new.cents ≡ self.old.cents - amount) }
        ensures fault { IfErr result (λ e. e ≡ AboveBalance pool) }
        ensures unchanged { OnErr result (self.new ≡ self.old) }
    {
        if amount > self.cents {
            return Err(BookFault::AboveBalance(pool));
        }
        self.cents -= amount;
        Ok(())
    }
}
