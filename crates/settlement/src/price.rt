//! Prices and rates, in cents for a megawatt and month, within their limits.
ghost use Rattle.std.specs.Prelude.{◌≡◌, ◌≤◌};

use pools::OutOfRange;

/// The highest price that is taken.
const MOST_PRICE: u32 = 500_000;

/// Quantities are in W, prices and rates for a megawatt.
pub(crate) const WATTS_IN_A_MEGAWATT: u64 = 1_000_000;

/// What charged lines are charged.
#[derive(Clone, Copy, PartialEq, Eq, Debug)]
pub struct Price {
    /// Cents for a megawatt and month, 0 to 500,000.
    pub cents: u32,
    ghost within: { cents ≤ 500000 },
}

/// The price of so many cents; a number above 500,000 is handed back.
impl TryFrom<u32> for Price {
    ghost use Rattle.settlement.specs.Prices.{IsPriced};

    type Error = OutOfRange;

    ghost try_from_gives = { IsPriced };

    fn try_from(cents: u32) -> Result<Price, OutOfRange> {
        if cents > MOST_PRICE {
            return Err(OutOfRange(cents));
        }
        Ok(Price { cents })
    }
}

/// What a line is charged or paid at: at most triple the highest price.
#[derive(Clone, Copy, PartialEq, Eq, Debug)]
pub struct Rate {
    /// Cents for a megawatt and month, 0 to 1,500,000.
    pub cents: u64,
    ghost within: { cents ≤ 1500000 },
}

/// Charged lines are charged at the price itself.
impl From<Price> for Rate {
    ghost from_gives = { λ p r. r.cents ≡ p.cents };

    fn from(price: Price) -> Rate {
        Rate {
            cents: u64::from(price.cents),
        }
    }
}

impl Rate {
    ghost use Rattle.settlement.specs.Prices.{cents_at};

    /// The cents for a quantity in W, rounded down. A line's quantity is at most 58,590,000,000 W, so the product fits 64 bits.
    pub(crate) fn cents_for(self, quantity: u64) -> u64
        requires { quantity ≤ 58590000000 }
        ensures { result ≡ cents_at self.cents quantity }
    {
        self.cents * quantity / WATTS_IN_A_MEGAWATT
    }
}
