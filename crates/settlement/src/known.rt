//! Figures known from outside, held against the definitions.
ghost use Rattle.std.specs.Prelude.{◌≡◌};
ghost use Rattle.settlement.specs.Known.{AllKnownFiguresAgree};

use crate::pays::rate_for;
use crate::price::Price;

/// The rate, in cents for a megawatt and month, for three eligible lines of 300,000 W over a fund of 1,000 cents, where the
/// price is 379,000. The contract also holds the table of known figures.
pub fn rate_for_three_lines() -> u64
    ensures figures { AllKnownFiguresAgree }
    ensures is { result ≡ 1111 }
{
    rate_for(Price { cents: 379_000 }, 1_000, 900_000).cents
}
