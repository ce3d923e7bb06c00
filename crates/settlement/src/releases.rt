//! Releasing the fund to the loads after a December.
ghost use Rattle.std.specs.Prelude.{◌≡◌, ◌*◌, ◌<◌, ◌≤◌, map, MatchBool, MatchOption, OnErr};
ghost use Rattle.fund.specs.Balances.{limit};
ghost use Rattle.pools.specs.PerPool.{entry_of};
ghost use Rattle.pools.specs.declared.pool.Pool.{Pool};
ghost use Rattle.settlement.specs.Releasing.{EachLoadWithin, LoadsWithin, share_of, shared, Releases, load_told};
ghost use Rattle.settlement.specs.Runs.{ReleaseGoesOn};
ghost use Rattle.assessment.specs.Pairs.{rules_of};
ghost use Rattle.settlement.specs.Views.{view};
ghost use Rattle.settlement.specs.declared.amounts.LoadAmount.TheVariants.{Load};

use crate::amounts::LoadAmount;
use crate::fault::SettlementFault;
use crate::postings::post_release;
use crate::settlement::Settlement;
use crate::stage::Stage;
use crate::tables::LoadEntry;
use assessment::AvailabilityRule;
use fund::total::total;
use fund::{FundBook, Standing};
use pools::{PerPool, Pool};

/// The most load entries that a release takes.
const MOST_LOADS: usize = 64;

/// The largest load that an entry may have.
const MOST_GIGAWATT_HOURS: u64 = 1_000_000;

fn each_load_within(loads: &[LoadEntry]) -> bool
    ensures { MatchBool result (EachLoadWithin loads.now) (EachLoadWithin loads.now → ⊥) }
{
    loads.iter().all(|entry| entry.load <= MOST_GIGAWATT_HOURS)
}

/// The total load in GWh, above 0, of entries within their limits; None where a limit is broken.
fn total_load(loads: &[LoadEntry]) -> Option<u128>
    ensures { MatchOption result (LoadsWithin loads.now → ⊥) (λ t. LoadsWithin loads.now × (t ≡ load_told Load loads.now)) }
{
    if !(1..=MOST_LOADS).contains(&loads.len()) || !each_load_within(loads) {
        return None;
    }
    match total(loads, LoadAmount::Load) {
        0 => None,
        load => Some(load),
    }
}

/// What is released: both balances, in cents, shared out over a total load.
#[derive(Clone, Copy, PartialEq, Eq, Debug)]
struct Release {
    balances: PerPool<u64>,
    load: u128,
    ghost within: { (p : Pool) → entry_of balances p ≤ limit },
    ghost loaded: { 0 < load },
}

impl Release {
    /// A load's part of a pool's balance, in whole cents, divided in 128 bits since a total has so many. The cast loses
    /// nothing, as the product fits 64 bits too: a balance is within the limit, and a load at most 1,000,000 GWh.
    fn share(&self, pool: Pool, load: u64) -> u64
        requires { load ≤ 1000000 }
        ensures { result ≡ share_of (entry_of self.now.balances pool) self.now.load load }
    {
        (u128::from(self.balances.get(pool) * load) / self.load) as u64
    }

    /// The entry with its share of each pool's balance.
    fn with_shares(&self, entry: LoadEntry) -> LoadEntry
        requires { entry.load ≤ 1000000 }
        ensures { result ≡ shared self.now.balances.generic self.now.balances.flexible self.now.load entry }
    {
        LoadEntry {
            shares: PerPool::of(|pool| self.share(pool, entry.load)),
            ..entry
        }
    }

    /// Writes each entry's share of both balances, entry by entry with its index.
    fn share_out(&self, loads: &mut [LoadEntry])
        requires { EachLoadWithin loads.old }
        ensures { loads.new ≡ map (shared self.now.balances.generic self.now.balances.flexible self.now.load) loads.old }
    {
        for i in 0..loads.len() {
            loads[i] = self.with_shares(loads[i]);
        }
    }
}

impl<B: FundBook, G: AvailabilityRule, F: AvailabilityRule> Settlement<B, G, F> {
    /// Gives each load its share of both binding balances, and posts the shares out; what rounding leaves stays in the fund.
    /// The book is stood binding first, so that the postings of an advisory December do not count, and ruled off below two
    /// free places. Refused: `OutOfTurn` where no release is due, else `UnfitLoads` for load entries outside their limits.
    pub fn release(&mut self, loads: &mut [LoadEntry]) -> Result<(), SettlementFault>
        ensures does { Releases B.means (view B.state self.old) loads.old result (view B.state self.new) loads.new }
        ensures same { OnErr result (self.new ≡ self.old) }
        ensures rules { self.new.rules ≡ self.old.rules }
        ensures runs { ReleaseGoesOn B.means B.sound (rules_of G.means F.means self.old.rules) (view B.state self.old) result (rules_of G.means F.means self.new.rules) (view B.state self.new) loads.new }
    {
        let Stage::ReleaseDue(december) = self.stage else {
            return Err(SettlementFault::OutOfTurn);
        };
        let load = total_load(loads).ok_or(SettlementFault::UnfitLoads)?;
        self.book.stand(Standing::Binding).unwrap();
        let balances = PerPool::of(|pool| self.book.binding(pool));
        Release { balances, load }.share_out(loads);
        post_release(&mut self.book, loads);
        self.stage = Stage::Closed(december);
        Ok(())
    }
}
