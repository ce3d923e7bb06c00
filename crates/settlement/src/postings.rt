//! The postings of a close and of a release. Their tests have passed, so no book refuses them, and each is unwrapped.
ghost use Rattle.std.specs.Prelude.{◌≡◌, ◌+◌, ◌<◌, ◌≤◌};
ghost use Rattle.fund.specs.Balances.{limit};
ghost use Rattle.pools.specs.PerPool.{entry_of};
ghost use Rattle.pools.specs.declared.pool.Pool.{Pool};
ghost use Rattle.settlement.specs.Releasing.{load_told, shares_posted};
ghost use Rattle.settlement.specs.declared.amounts.LoadAmount.TheVariants.{Share};
ghost use Rattle.settlement.specs.Closing.{posted_in, posted_out, posted, month_posted, Funded};

use crate::amounts::LoadAmount;
use crate::tables::{LoadEntry, PoolClose};
use fund::total::total;
use fund::{FundBook, make_room};
use pools::{PerPool, Pool};

/// The most postings that a close makes: charges in and payments out, in each pool.
const CLOSE_POSTINGS: usize = 4;

/// The most that a release makes: one out of each pool.
const RELEASE_POSTINGS: usize = 2;

/// Posts an amount in cents into the pool; zero is not posted.
fn post_in<B: FundBook>(book: &mut B, pool: Pool, amount: u64)
    requires place { 0 < B.means.free (B.state book.old) }
    requires room { B.means.shown (B.state book.old) pool + amount ≤ limit }
    ensures { B.state book.new ≡ posted_in B.means (B.state book.old) pool amount }
{
    if amount > 0 {
        book.post_in(pool, amount).unwrap();
    }
}

/// Posts an amount in cents out of the pool; zero is not posted.
fn post_out<B: FundBook>(book: &mut B, pool: Pool, amount: u64)
    requires place { 0 < B.means.free (B.state book.old) }
    requires covered { amount ≤ B.means.shown (B.state book.old) pool }
    ensures { B.state book.new ≡ posted_out B.means (B.state book.old) pool amount }
{
    if amount > 0 {
        book.post_out(pool, amount).unwrap();
    }
}

fn post_pool<B: FundBook>(book: &mut B, pool: Pool, close: PoolClose)
    requires places { 2 ≤ B.means.free (B.state book.old) }
    requires funded { Funded B.means (B.state book.old) pool close }
    ensures { B.state book.new ≡ posted B.means (B.state book.old) pool close }
{
    post_in(book, pool, close.charges);
    post_out(book, pool, close.payments);
}

/// Makes room for four postings, then posts each pool's charges and payments, generic first.
pub(crate) fn post_month<B: FundBook>(book: &mut B, pools: PerPool<PoolClose>)
    requires { (p : Pool) → Funded B.means (B.state book.old) p (entry_of pools p) }
    ensures { B.state book.new ≡ month_posted B.means (B.state book.old) pools }
{
    make_room(book, CLOSE_POSTINGS);
    for pool in Pool::ALL {
        post_pool(book, pool, pools.get(pool));
    }
}

/// Makes room for two postings, then posts out what is released of each pool, generic first.
pub(crate) fn post_release<B: FundBook>(book: &mut B, loads: &[LoadEntry])
    requires { (p : Pool) → load_told (Share p) loads.now ≤ B.means.shown (B.state book.old) p }
    ensures { B.state book.new ≡ shares_posted B.means (B.state book.old) loads.now }
{
    make_room(book, RELEASE_POSTINGS);
    for pool in Pool::ALL {
        // The cast loses nothing, since no more is shared out than the pool shows.
        post_out(book, pool, total(loads, LoadAmount::Share(pool)) as u64);
    }
}
