//! Calls over a book of any kind, and the laws that every book keeps.
ghost use Rattle.std.specs.Prelude.{◌≡◌};
ghost use Rattle.fund.specs.Laws.{RunsGoOn, Conserves, AdvisoryLeavesBinding, Roomy, with_room, RulingOffMakesRoom, FourPostingsHavePlaces};

use crate::book::FundBook;
use pools::Pool;

/// A pool's balances, as a book tells them.
#[derive(Clone, Copy, PartialEq, Eq, Debug)]
pub struct Account {
    /// What the pool holds by its binding months, in cents, 0 to `LIMIT`.
    pub binding: u64,
    /// What it holds with the postings of an advisory month on top, in cents, 0 to `LIMIT`.
    pub shown: u64,
}

/// Looks up both balances of a pool. No run of calls loses a cent of the binding one, and no posting that is made in advisory
/// standing moves it.
#[tactic(auto, using(crate::specs::LawsLemmas::runs_go_on, crate::specs::LawsLemmas::conserves, crate::specs::LawsLemmas::advisory_leaves_binding))]
pub fn account_of<B: FundBook>(book: &B, pool: Pool) -> Account
    ensures binding { result.binding ≡ B.means.binding (B.state book.now) pool }
    ensures shown { result.shown ≡ B.means.shown (B.state book.now) pool }
    ensures runs { RunsGoOn B.means }
    ensures conserves { Conserves B.means B.sound }
    ensures advisory { AdvisoryLeavesBinding B.means B.sound }
{
    Account {
        binding: book.binding(pool),
        shown: book.shown(pool),
    }
}

/// Rules the book off if fewer places are free than that many postings want. For up to 6 postings there are then places; of
/// more, the last may find none. Balances and standing stay.
#[tactic(auto, using(crate::specs::LawsLemmas::roomy, crate::specs::LawsLemmas::ruling_off_makes_room, crate::specs::LawsLemmas::four_postings_have_places))]
pub fn make_room<B: FundBook>(book: &mut B, postings: usize)
    ensures made { B.state book.new ≡ with_room B.means (B.state book.old) postings }
    ensures roomy { Roomy B.means (B.state book.old) (B.state book.new) postings }
    ensures places { RulingOffMakesRoom B.means B.sound }
    ensures four { FourPostingsHavePlaces B.means B.sound }
{
    if book.free_places() < postings {
        book.rule_off();
    }
}
