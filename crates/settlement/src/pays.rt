//! The paying part of a close: one rate for each pool, and each eligible line's payment at it.
ghost use Rattle.std.specs.Prelude.{◌≡◌, ℕ, ◌+◌, ◌*◌, ◌<◌, ◌≤◌, map, length, slice_index, slice_index_or};
ghost use Rattle.arrayvec.specs.ArrayVec.{array_vec_len};
ghost use Rattle.fund.specs.Balances.{limit};
ghost use Rattle.pools.specs.PerPool.{entry_of};
ghost use Rattle.pools.specs.declared.pool.Pool.{Pool};
ghost use Rattle.settlement.specs.Closing.{line_tells, rate_of, paid_entry, no_line, line_table, QuantitiesWithin, ClosesPool};
ghost use Rattle.settlement.specs.declared.amounts.LineAmount.TheVariants.{EligibleQuantity};

use crate::amounts::LineAmount;
use crate::checks::MOST_RESOURCES;
use crate::price::{Price, Rate, WATTS_IN_A_MEGAWATT};
use crate::tables::{LINES, LineEntry, PoolClose, pool_at};
use arrayvec::ArrayVec;
use assessment::LineState;
use fund::total::total;
use fund::{BookFault, FundBook, LIMIT, TellsAmount};
use pools::{PerPool, Pool};

/// The rate that eligible lines are paid, in cents for a megawatt and month, from the price, the fund in cents and the eligible
/// quantity in W: 0 to three times the price.
pub(crate) fn rate_for(price: Price, fund: u64, quantity: u128) -> Rate
    requires { fund ≤ limit }
    ensures { result.cents ≡ rate_of price.cents fund quantity }
{
    if quantity == 0 {
        return Rate { cents: 0 };
    }
    let triple = 3 * u128::from(price.cents);
    let all_of_it = u128::from(fund) * u128::from(WATTS_IN_A_MEGAWATT) / quantity;
    // The cast loses nothing, since a rate is triple the price at most.
    Rate {
        cents: triple.min(all_of_it) as u64,
    }
}

/// The eligible quantity of each line in W, 0 where it is not eligible, in a table of its own. Filled by place, as `pay` goes
/// by place too.
fn eligible_quantities(entries: &ArrayVec<LineEntry, MOST_RESOURCES>) -> [u64; MOST_RESOURCES]
    ensures eligible { (k : ℕ) → k < array_vec_len entries.now → slice_index result k ≡ line_tells EligibleQuantity (slice_index_or entries.now.items k no_line) }
    ensures others { (k : ℕ) → array_vec_len entries.now ≤ k → slice_index result k ≡ 0 }
{
    let mut quantities = [0; MOST_RESOURCES];
    for (i, entry) in entries.iter().enumerate() {
        quantities[i] = entry.amount(LineAmount::EligibleQuantity);
    }
    quantities
}

/// Pays every eligible line at the rate, from a table of the eligible quantities. The place is counted: of what is written
/// through a `zip` with `iter_mut` nothing is known.
fn pay(entries: &mut ArrayVec<LineEntry, MOST_RESOURCES>, rate: Rate)
    requires { QuantitiesWithin entries.old.items }
    ensures { entries.new.items ≡ map (paid_entry rate.cents) entries.old.items }
{
    let quantities = eligible_quantities(entries);
    for (i, entry) in entries.iter_mut().enumerate() {
        match entry.line.state {
            LineState::Paid => entry.cents = rate.cents_for(quantities[i]),
            LineState::Empty | LineState::Charged | LineState::Neutral => {}
        }
    }
}

/// A pool's close, by the price of its charges and what the book shows: its charges, rate and payments in cents, the payments
/// also written to the lines. Refused with `OverLimit` of the pool where what is shown and the charges together pass the limit.
pub(crate) fn close_pool<B: FundBook>(
    book: &B,
    pool: Pool,
    price: Price,
    entries: &mut ArrayVec<LineEntry, MOST_RESOURCES>,
) -> Result<PoolClose, BookFault>
    requires { QuantitiesWithin entries.old.items }
    ensures { ClosesPool price.cents (B.means.shown (B.state book.now) pool) pool entries.old.items result entries.new.items }
{
    let shown = book.shown(pool);
    let charges = total(entries, LineAmount::Charges);
    if charges > u128::from(LIMIT - shown) {
        return Err(BookFault::OverLimit(pool));
    }
    // Neither cast loses anything: the fund is within the limit, and the payments are within the fund.
    let charges = charges as u64;
    let quantity = total(entries, LineAmount::EligibleQuantity);
    let rate = rate_for(price, shown + charges, quantity);
    pay(entries, rate);
    let payments = total(entries, LineAmount::Payments) as u64;
    Ok(PoolClose {
        charges,
        rate: rate.cents,
        payments,
    })
}

/// Writes the line table: two entries a resource, generic first. The place is counted, since it tells the pool and the
/// resource.
pub(crate) fn write_table(
    lines: &mut [LineEntry],
    entries: &PerPool<ArrayVec<LineEntry, MOST_RESOURCES>>,
)
    requires { (p : Pool) → length lines.old ≡ 2 * array_vec_len (entry_of entries.now p) }
    ensures { lines.new ≡ line_table entries.now.generic.items entries.now.flexible.items (array_vec_len entries.now.generic) }
{
    for (place, entry) in lines.iter_mut().enumerate() {
        *entry = match pool_at(place) {
            Pool::Generic => entries.generic[place / LINES],
            Pool::Flexible => entries.flexible[place / LINES],
        };
    }
}
