//! Why the library would not work an example.
ghost use Rattle.std.specs.Prelude.{◌≡◌};
ghost use Rattle.examples.specs.declared.refusal.Refusal.TheVariants.{PastLimits};

use assessment::DayBreach;
use std::io;

/// Why an example has no figures.
#[derive(Clone, Copy, PartialEq, Eq, Debug, Drop)]
pub enum Refusal {
    /// The example's month is outside the limits of a trade month.
    NoSuchMonth,
    /// A day is 0 or past the month's end.
    NoSuchDay,
    /// A category is above 3.
    NoSuchCategory,
    /// A planned day breaks limits of a submission; this is the first of them.
    PastLimits(DayBreach),
    /// A row of the month is past a day result's limits.
    RowsPastLimits,
    /// A figure that is read would pass 64 bits while it is worked out.
    TooLarge,
}

/// A day past its limits.
// By hand: contracts name the case that `?` makes, and a derived conversion has no contract.
impl From<DayBreach> for Refusal {
    ghost from_gives = { λ breach r. r ≡ PastLimits breach };

    fn from(breach: DayBreach) -> Refusal {
        Refusal::PastLimits(breach)
    }
}

impl Refusal {
    /// The refusal in words.
    fn words(&self) -> &'static str {
        match self {
            Refusal::NoSuchMonth => "the month or its windows are outside the limits",
            Refusal::NoSuchDay => "the month lacks the day",
            Refusal::NoSuchCategory => "there is no such category",
            Refusal::PastLimits(DayBreach::KilowattsOverLimit) =>
                "a showing or bid is over the limit",
            Refusal::PastLimits(DayBreach::ExemptionOverShowing) =>
                "an exemption is over its showing",
            Refusal::PastLimits(DayBreach::FlexibleInCategory0) => {
                "flexible capacity is shown without a category"
            }
            Refusal::RowsPastLimits => "a day row is outside the limits",
            Refusal::TooLarge => "a figure is too large",
        }
    }
}

/// A refused example ends the report as an output that cannot be written does.
impl From<Refusal> for io::Error {
    fn from(refusal: Refusal) -> io::Error {
        io::Error::other(refusal.words())
    }
}
