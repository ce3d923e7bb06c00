//! What every fund book does, said by the states that it goes through.
ghost use Rattle.std.specs.Prelude.{◌≡◌, ◌≤◌, MatchResult};
ghost use Rattle.fund.specs.Balances.{limit};
ghost use Rattle.fund.specs.Meaning.{FundMeaning, Lawful, Taken, Refuses, stands, posts_in, posts_out};
ghost use Rattle.pools.specs.declared.pool.Pool.{Pool};

use crate::fault::BookFault;
use crate::standing::Standing;
use pools::Pool;

/// No balance is above this many cents; so many are allowed.
pub const LIMIT: u64 = 7_000_000_000_000;

/// A book of the two pools' money. A refused call leaves it equal to what it was.
pub trait FundBook {
    /// The states of this kind of book.
    ghost State: { Type 0 };

    /// What is looked up in each state, and where each call leads.
    ghost means: { FundMeaning State };

    /// The states that a book of this kind can be in.
    ghost sound: { State → Type 0 };

    /// The state that this book is in.
    ghost state: { Self → State };

    /// What the pool holds by its binding months, in cents, 0 to `LIMIT`.
    fn binding(&self, pool: Pool) -> u64
        ensures { result ≡ means.binding (state self.now) pool };

    /// What the pool holds with the postings of an advisory month on top, in cents, 0 to `LIMIT`. In binding standing it is the
    /// binding balance.
    fn shown(&self, pool: Pool) -> u64
        ensures { result ≡ means.shown (state self.now) pool };

    /// The standing in which postings are now made.
    fn standing(&self) -> Standing
        ensures { result ≡ means.standing (state self.now) };

    /// How many places for postings the book has: at least 8.
    fn size(&self) -> usize
        ensures { result ≡ means.size (state self.now) };

    /// How many places are free, each for one more posting.
    fn free_places(&self) -> usize
        ensures { result ≡ means.free (state self.now) };

    /// Whether the book can stand advisory.
    fn takes_advisory(&self) -> bool
        ensures { result ≡ means.takes_advisory (state self.now) };

    /// Sets the standing in which postings are made. Binding is always taken, and the shown balances are then the binding ones.
    /// Advisory keeps the balances; a book that takes no advisory months refuses it with `NoAdvisoryMonths`. Either way other
    /// places may be free afterwards than before.
    fn stand(&mut self, standing: Standing) -> Result<(), BookFault>
        ensures { MatchResult result (λ _. Taken means (state self.old) (state self.new) (stands standing)) (λ e. Refuses means (state self.old) (stands standing) e × (self.new ≡ self.old)) };

    /// Raises the pool's shown balance by an amount in cents, and in binding standing its binding balance too. Refused with
    /// `NoFreePlace` where no place is free, else with `OverLimit` if the shown balance would pass `LIMIT`. An amount of 0
    /// wants a place too; a posting uses one place at most.
    fn post_in(&mut self, pool: Pool, amount: u64) -> Result<(), BookFault>
        ensures { MatchResult result (λ _. Taken means (state self.old) (state self.new) (posts_in pool amount)) (λ e. Refuses means (state self.old) (posts_in pool amount) e × (self.new ≡ self.old)) };

    /// Lowers the pool's shown balance by an amount in cents, and in binding standing its binding balance too. Refused with
    /// `NoFreePlace` where no place is free, else with `AboveBalance` if the amount is more than the shown balance. An amount
    /// of 0 wants a place too; a posting uses one place at most.
    fn post_out(&mut self, pool: Pool, amount: u64) -> Result<(), BookFault>
        ensures { MatchResult result (λ _. Taken means (state self.old) (state self.new) (posts_out pool amount)) (λ e. Refuses means (state self.old) (posts_out pool amount) e × (self.new ≡ self.old)) };

    /// Frees all but at most two places; balances and standing stay.
    fn rule_off(&mut self)
        ensures { state self.new ≡ means.ruled_off (state self.old) };

    /// The laws that hold in the states of this kind of book.
    ghost lawful: { Lawful means sound };

    /// Every book of this kind is in a state that the kind can be in.
    ghost real: { (b : Self) → sound (state b) };

    /// A size is 8 or more. This law and the next two stand by themselves too, as code over any book needs them; each follows
    /// from `lawful`.
    ghost sized: { (b : Self) → 8 ≤ means.size (state b) } = { λ b. (lawful.holds (state b) (real b)).sized };

    /// No shown balance is above the limit.
    ghost shown_within: { (b : Self) (q : Pool) → means.shown (state b) q ≤ limit } = { λ b. (lawful.holds (state b) (real b)).shown };

    /// No binding balance is above the limit.
    ghost binding_within: { (b : Self) (q : Pool) → means.binding (state b) q ≤ limit } = { λ b. (lawful.holds (state b) (real b)).binding };
}
