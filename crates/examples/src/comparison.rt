//! A worked figure beside the exact one and the published one.
ghost use Rattle.std.specs.Prelude.{◌≡◌};
ghost use Rattle.examples.specs.Agreement.{close, meets, raised_if, counted_with};

/// A figure as it was published, in W or, for a share, in millionths of the whole.
#[derive(Clone, Copy, Debug, PartialEq, Eq)]
pub struct Published {
    /// The figure in print, with its unit.
    pub printed: &'static str,
    /// The figure printed, in W or millionths.
    pub value: u64,
    /// One unit of the last digit printed, in W or millionths too.
    pub unit: u64,
}

/// A figure of an example with those that it is held against, all in the unit of its reading.
#[derive(Clone, Copy, Debug, PartialEq, Eq)]
pub struct Comparison {
    /// What the library gives.
    pub figure: u64,
    /// What the rules give, worked out apart from the library.
    pub exact: u64,
    /// What was published, if anything was.
    pub published: Option<Published>,
}

impl Published {
    /// Whether a figure is less than one unit from the published one.
    fn agrees(&self, figure: u64) -> bool
        ensures { result ≡ close figure self.now.value self.now.unit }
    {
        figure.abs_diff(self.value) < self.unit
    }
}

impl Comparison {
    /// Whether the figure is exactly as expected, and agrees with what was published.
    pub(crate) fn holds(&self) -> bool
        ensures { result ≡ meets self.now }
    {
        self.figure == self.exact && self.published.is_none_or(|known| known.agrees(self.figure))
    }
}

/// Counts over the examples printed so far. A count stays at the largest 32-bit number once it is there.
#[derive(Clone, Copy, Debug, Default, PartialEq, Eq)]
pub struct Tally {
    /// How many figures were compared.
    pub compared: u32,
    /// How many of them hold (`Comparison::holds`).
    pub agreeing: u32,
    /// How many of them were published.
    pub published: u32,
}

/// The count, and one more where the test holds.
fn raised(count: u32, test: bool) -> u32
    ensures { result ≡ raised_if count test }
{
    count.saturating_add(u32::from(test))
}

impl Tally {
    /// The tally with this comparison counted too.
    pub(crate) fn counted(self, comparison: &Comparison) -> Tally
        ensures { result ≡ counted_with self comparison.now }
    {
        Tally {
            compared: raised(self.compared, true),
            agreeing: raised(self.agreeing, comparison.holds()),
            published: raised(self.published, comparison.published.is_some()),
        }
    }
}
