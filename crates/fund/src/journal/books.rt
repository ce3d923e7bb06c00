//! `Journal` as a fund book.
ghost use Rattle.std.specs.Prelude.{◌≡◌, ◌<◌, ◌≤◌, ◌↔◌, None, IsOk, IfOk, IfErr, MatchResult, vec_len};
ghost use Rattle.fund.specs.Balances.{limit};
ghost use Rattle.fund.specs.Faults.{label, labelled};
ghost use Rattle.fund.specs.Postings.{posted, balance};
ghost use Rattle.fund.specs.Pages.{Fit, Pages, PagesSound, blank_pages, posting, with_posting, with_brought};
ghost use Rattle.fund.specs.Journal.{pages_of, journal_book};
ghost use Rattle.fund.specs.JournalLemmas.{journal_lawful};
ghost use Rattle.fund.specs.declared.fault.BookFault.TheVariants.{NoFreePlace};

use crate::balance::Balance;
use crate::book::FundBook;
use crate::fault::BookFault;
use crate::journal::{FEWEST_PLACES, Journal, MOST_PLACES, RefusedPlaces};
use crate::posting::{Direction, Posting, Side};
use crate::standing::Standing;
use crate::total::total;
use pools::{PerPool, Pool};

impl Journal {
    /// An empty journal in the places handed in, 8 to 65,536 of them, whatever they hold. Any other number is refused with
    /// `UnfitPlaces`, and the places come back.
    pub fn over(mut places: Vec<Posting>) -> Result<Journal, RefusedPlaces>
        ensures fits { IsOk result ↔ Fit (vec_len places) }
        ensures blank { IfOk result (λ j. pages_of j ≡ blank_pages (vec_len places)) }
        ensures fault { IfErr result (λ e. label e.fault ≡ labelled 30 None) }
        ensures back { IfErr result (λ e. e.places ≡ places) }
    {
        let size = places.len();
        if !(FEWEST_PLACES..=MOST_PLACES).contains(&size) {
            return Err(RefusedPlaces {
                fault: BookFault::UnfitPlaces,
                places,
            });
        }
        places.clear();
        Ok(Journal {
            postings: places,
            size,
        })
    }

    /// The postings since the journal was last ruled off, the earliest first; what was brought forward comes before all others.
    pub fn postings(&self) -> &[Posting]
        ensures { result.now ≡ (pages_of self.now).postings }
    {
        self.postings.as_slice()
    }

    /// What the postings of one direction in the pool come to, in cents.
    #[tactic(auto, unfolding(crate::specs::Postings::posted))]
    fn posted(&self, direction: Direction, pool: Pool) -> u128
        ensures { result ≡ posted direction pool (pages_of self.now).postings }
    {
        total(&self.postings, Side { pool, direction })
    }

    /// What came into the pool less what went out of it.
    fn balance(&self, pool: Pool) -> Balance
        ensures { result.cents ≡ balance (pages_of self.now).postings pool }
    {
        let cents = self.posted(Direction::In, pool) - self.posted(Direction::Out, pool);
        // `as` loses nothing: a balance is within the limit.
        Balance::new(cents as u64)
    }

    /// Refuses with `NoFreePlace` of the pool where no place is free.
    fn has_place(&self, pool: Pool) -> Result<(), BookFault>
        ensures { MatchResult result (λ _. vec_len self.now.postings < self.now.size) (λ e. (vec_len self.now.postings ≡ self.now.size) × (e ≡ NoFreePlace pool)) }
    {
        if self.free_places() == 0 {
            return Err(BookFault::NoFreePlace(pool));
        }
        Ok(())
    }

    /// Writes a posting into the first free place. The caller has made sure that there is one, and that the balance allows the amount.
    fn write(&mut self, direction: Direction, pool: Pool, amount: u64)
        requires { PagesSound (with_posting (pages_of self.old) (posting direction pool amount)) }
        ensures { pages_of self.new ≡ with_posting (pages_of self.old) (posting direction pool amount) }
    {
        self.postings.push_reserved(Posting {
            side: Side { pool, direction },
            amount,
        });
    }

    /// Writes what is brought forward of one balance, if that is anything.
    fn bring_forward(&mut self, pool: Pool, amount: u64)
        requires { PagesSound (with_brought (pages_of self.old) pool amount) }
        ensures { pages_of self.new ≡ with_brought (pages_of self.old) pool amount }
    {
        if amount > 0 {
            self.write(Direction::In, pool, amount);
        }
    }
}

impl FundBook for Journal {
    ghost State = { Pages };

    ghost means = { journal_book };

    ghost sound = { PagesSound };

    ghost state = { pages_of };

    ghost lawful = { journal_lawful };

    ghost real = { λ b. b.sound };

    fn binding(&self, pool: Pool) -> u64 {
        self.balance(pool).cents()
    }

    fn shown(&self, pool: Pool) -> u64 {
        self.binding(pool)
    }

    fn standing(&self) -> Standing {
        Standing::Binding
    }

    fn size(&self) -> usize {
        self.size
    }

    fn free_places(&self) -> usize {
        self.size - self.postings.len()
    }

    fn takes_advisory(&self) -> bool {
        false
    }

    fn stand(&mut self, standing: Standing) -> Result<(), BookFault> {
        standing.only_binding()
    }

    fn post_in(&mut self, pool: Pool, amount: u64) -> Result<(), BookFault> {
        self.has_place(pool)?;
        // A copy of the balance takes the amount first: it says whether the limit allows it.
        self.balance(pool).post_in(pool, amount)?;
        self.write(Direction::In, pool, amount);
        Ok(())
    }

    fn post_out(&mut self, pool: Pool, amount: u64) -> Result<(), BookFault> {
        self.has_place(pool)?;
        self.balance(pool).post_out(pool, amount)?;
        self.write(Direction::Out, pool, amount);
        Ok(())
    }

    fn rule_off(&mut self) {
        let balances = PerPool::of(|pool| self.binding(pool));
        self.postings.clear();
        for pool in Pool::ALL {
            self.bring_forward(pool, balances.get(pool));
        }
    }
}
