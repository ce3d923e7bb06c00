//! One function that totals amounts: of postings here, and of whatever else tells an amount.
ghost use Rattle.std.specs.Prelude.{◌≡◌, ℕ, sum_by};

/// An entry that tells the amount which counts under a selection.
pub trait TellsAmount {
    /// What is totalled: of postings, those of one pool and direction.
    type Selection: Copy;

    /// What counts of an entry under a selection.
    ghost told: { Self.Selection → Self → ℕ };

    /// The amount that counts under the selection, in the unit of such amounts; 0 where the selection passes the entry over.
    fn amount(&self, selection: Self::Selection) -> u64
        ensures { result ≡ told selection self.now };
}

/// The sum of what the entries tell. Fewer than 2^64 amounts of 64 bits always fit the answer's 128.
pub fn total<T: TellsAmount>(entries: &[T], selection: T::Selection) -> u128
    ensures { result ≡ sum_by (T.TellsAmount.told selection) entries.now }
{
    entries
        .iter()
        .map(|entry| u128::from(entry.amount(selection)))
        .sum()
}
