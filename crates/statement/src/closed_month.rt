//! What a statement tells of its month.
ghost use Rattle.std.specs.Prelude.{◌≡◌};
ghost use Rattle.settlement.specs.Opening.{standing_of};

use crate::roster::MOST_RESOURCES;
use arrayvec::ArrayVec;
use fund::Standing;
use pools::PerPool;
use settlement::{LINES, LineEntry, MonthTerms, PoolClose};

/// The most places of a month's line table.
pub(crate) const MOST_LINES: usize = LINES * MOST_RESOURCES;

/// A closed month: its terms and standing, two lines a resource, what each pool comes to, and the balance that it then shows.
#[derive(PartialEq, Eq, Debug, Drop)]
pub(crate) struct ClosedMonth {
    /// What it was opened with.
    pub terms: MonthTerms,
    /// Its standing, which the terms tell by a number.
    pub standing: Standing,
    /// Two a resource, generic first, the empty ones too: obligation and availability in watts, state, and cents.
    pub lines: ArrayVec<LineEntry, MOST_LINES>,
    /// Charges and payments in cents, the rate in cents per megawatt and month.
    pub pools: PerPool<PoolClose>,
    /// The balance that each pool shows after the close, in cents.
    pub shown: PerPool<u64>,
    ghost stands: { standing ≡ standing_of terms.standing },
}
