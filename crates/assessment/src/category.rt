//! A resource's category of flexible capacity, within its limits.
ghost use Rattle.std.specs.Prelude.{◌≡◌, ◌<◌, ◌≤◌, MatchResult};

use pools::OutOfRange;

const MOST_CATEGORY: u32 = 3;

/// The kind of a resource's flexible capacity in a month, which fixes the hours that the flexible rule assesses.
#[derive(Clone, Copy, PartialEq, Eq, Debug)]
pub struct Category {
    /// 0: no flexible capacity; 1: base; 2: peak; 3: super-peak.
    pub number: u32,
    ghost within: { number ≤ 3 },
}

impl TryFrom<u32> for Category {
    type Error = OutOfRange;

    ghost try_from_gives = { λ number r. MatchResult r (λ c. c.number ≡ number) (λ e. (e.0 ≡ number) × (3 < number)) };

    /// Refuses a number above 3 and hands it back.
    fn try_from(number: u32) -> Result<Category, OutOfRange> {
        if number > MOST_CATEGORY {
            return Err(OutOfRange(number));
        }
        Ok(Category { number })
    }
}
