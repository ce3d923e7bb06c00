//! A month of two resources, and a December with its release, through the public calls.
use assessment::{
    Bid, DAY_PLACES, DaySubmission, FlexibleRule, GenericRule, HOURS, HourBids, SHIPPED_RULES,
    Showing, TradeMonth,
};
use fund::{BalanceBook, Overlay};
use pools::{PerPool, Pool};
use settlement::{
    LINES, LineEntry, LoadEntry, MonthTerms, PoolClose, ResourceDay, RosterEntry, Settlement,
    SubmittedDay,
};

const ROSTER: [RosterEntry; 2] = [RosterEntry {
    identifier: 7,
    category: 0,
}; 2];

fn terms(year: u32, month: u32, standing: u32) -> MonthTerms {
    MonthTerms {
        month: TradeMonth {
            year,
            month,
            holidays: 0,
            generic_start: 14,
            category2_start: 16,
            category3_start: 16,
        },
        price: 379_000,
        standing,
    }
}

/// 100 MW shown as generic capacity, and this much of it bid in every hour of both markets.
fn hundred_megawatts(economic: u32) -> DaySubmission {
    let bid = Bid {
        economic,
        self_scheduled: 0,
    };
    let bids = HourBids::from(bid);
    DaySubmission {
        showings: PerPool {
            generic: Showing {
                shown: 100_000,
                exempt: 0,
            },
            flexible: Showing {
                shown: 0,
                exempt: 0,
            },
        },
        hours: [bids; HOURS],
    }
}

type Desk = Settlement<Overlay<BalanceBook>, GenericRule, FlexibleRule>;

/// Opens the month, records both resources on a day, and closes it: what it comes to in the generic pool.
fn settle(desk: &mut Desk, month: &MonthTerms, day: u32) -> Option<PoolClose> {
    let mut rows = [None; DAY_PLACES * ROSTER.len()];
    let mut lines = [LineEntry::default(); LINES * ROSTER.len()];
    desk.open(month, &ROSTER, &mut rows).ok()?;
    let first = SubmittedDay {
        at: ResourceDay { resource: 0, day },
        submission: hundred_megawatts(0),
    };
    desk.record(&ROSTER, &mut rows, &first).ok()?;
    let second = SubmittedDay {
        at: ResourceDay { resource: 1, day },
        submission: hundred_megawatts(100_000),
    };
    desk.record(&ROSTER, &mut rows, &second).ok()?;
    let pools = desk.close(&ROSTER, &rows, &mut lines).ok()?;
    Some(pools.generic)
}

#[test]
fn june_of_two_resources(rt: HostRuntime) {
    let mut desk = Settlement::start(Overlay::over(BalanceBook::new()), SHIPPED_RULES);
    assert_eq!(rt;
        settle(&mut desk, &terms(2018, 6, 0), 1),
        Some(PoolClose {
            charges: 1_705_500,
            rate: 1_137_000,
            payments: 81_213,
        })
    );
    assert_eq!(rt; desk.account(Pool::Generic).balances.binding, 1_624_287);
    assert_eq!(rt; desk.account(Pool::Flexible).balances.binding, 0);
    assert!(rt; settle(&mut desk, &terms(2018, 6, 0), 1).is_none());
}

#[test]
fn advisory_december_and_release(rt: HostRuntime) {
    let mut desk = Settlement::start(Overlay::over(BalanceBook::new()), SHIPPED_RULES);
    assert!(rt; settle(&mut desk, &terms(2018, 11, 0), 1).is_some());
    let held = desk.account(Pool::Generic).balances.binding;
    assert!(rt; settle(&mut desk, &terms(2018, 12, 1), 3).is_some());
    assert!(rt; held < desk.account(Pool::Generic).balances.shown);
    let mut loads = [LoadEntry {
        load: 1,
        shares: PerPool::of(|_| 0),
    }; 3];
    assert!(rt; desk.release(&mut loads).is_ok());
    assert_eq!(rt; loads[0].shares.generic, held / 3);
    assert_eq!(rt; desk.account(Pool::Generic).balances.shown, held % 3);
}
