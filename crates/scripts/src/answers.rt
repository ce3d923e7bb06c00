//! What is printed: the answer to each call, and the line about the fund.
//! Each function fails only where the output cannot be written.
use assessment::{AvailabilityRule, DayFigures};
use fund::FundBook;
use pools::{PerPool, Pool};
use settlement::{LINES, LineEntry, LoadEntry, PoolClose, Settlement, SettlementFault, pool_at};
use std::io;

/// Prints that a call was taken.
pub(crate) fn taken(rt: &impl Print) -> io::Result<()> {
    rt.println("OK")
}

/// Prints that a day was recorded, with the four figures stored, in watts: generic obligation and availability, then flexible.
pub(crate) fn recorded(rt: &impl Print, figures: &DayFigures) -> io::Result<()> {
    let DayFigures { generic, flexible } = figures;
    println!(rt;
        "OK {} {} {} {}",
        generic.obligation, generic.availability, flexible.obligation, flexible.availability
    )
}

/// Prints the refusal of a call: the fault's number, its layer, and its place if it has one.
pub(crate) fn refused(rt: &impl Print, fault: SettlementFault) -> io::Result<()> {
    println!(rt; "REFUSED {}", fault.label())
}

/// Prints the entry at this place of the line table, which holds two lines for each resource, generic first.
fn line(rt: &impl Print, at: usize, entry: &LineEntry) -> io::Result<()> {
    let resource = at / LINES;
    let pool = pool_at(at);
    let line = entry.line;
    println!(rt;
        "LINE {resource} {pool} {} {} {} {} {} {}",
        line.obligation, line.availability, line.days, line.state, line.quantity, entry.cents
    )
}

fn pool_line(rt: &impl Print, pool: Pool, close: PoolClose) -> io::Result<()> {
    println!(rt;
        "POOL {pool} {} {} {}",
        close.charges, close.rate, close.payments
    )
}

/// Prints that a month was closed: every entry of the line table, the empty ones too, and then what each pool comes to.
pub(crate) fn closed(
    rt: &impl Print,
    lines: &[LineEntry],
    pools: &PerPool<PoolClose>,
) -> io::Result<()> {
    taken(rt)?;
    for (at, entry) in lines.iter().enumerate() {
        line(rt, at, entry)?;
    }
    for pool in Pool::ALL {
        pool_line(rt, pool, pools.get(pool))?;
    }
    Ok(())
}

/// Prints that the fund was released: for each load, by its index from 0, its cents from the generic and the flexible pool.
pub(crate) fn released(rt: &impl Print, loads: &[LoadEntry]) -> io::Result<()> {
    taken(rt)?;
    for (index, entry) in loads.iter().enumerate() {
        println!(rt;
            "SHARE {index} {} {}",
            entry.shares.generic, entry.shares.flexible
        )?;
    }
    Ok(())
}

/// Prints what the lookups tell of the fund: the standing, each pool's binding and shown balance in cents, and the free places.
pub(crate) fn fund<B: FundBook, G: AvailabilityRule, F: AvailabilityRule>(
    rt: &impl Print,
    settlement: &Settlement<B, G, F>,
) -> io::Result<()> {
    let generic = settlement.account(Pool::Generic).balances;
    let flexible = settlement.account(Pool::Flexible).balances;
    // In one print, since each is a write of its own.
    println!(rt;
        "FUND {} {} {} {} {} {} {} FREE {}",
        settlement.standing(),
        Pool::Generic,
        generic.binding,
        generic.shown,
        Pool::Flexible,
        flexible.binding,
        flexible.shown,
        settlement.free_places()
    )
}
