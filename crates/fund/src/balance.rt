//! One balance, in cents, that is never above the limit.
ghost use Rattle.std.specs.Prelude.{◌≤◌};
ghost use Rattle.fund.specs.Balances.{limit};

pub(crate) mod postings;

/// What one pool holds.
#[derive(Clone, Copy, PartialEq, Eq, Debug)]
pub(crate) struct Balance {
    /// Cents, 0 to `LIMIT`.
    cents: u64,
    ghost within: { cents ≤ limit },
}
