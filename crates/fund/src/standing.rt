//! The standing in which a book is kept.
ghost use Rattle.std.specs.Prelude.{◌≡◌, Some, MatchResult};
ghost use Rattle.fund.specs.Names.{standing_word, ReadsStanding};
ghost use Rattle.fund.specs.declared.fault.BookFault.TheVariants.{NoAdvisoryMonths};
ghost use Rattle.fund.specs.declared.standing.Standing.TheVariants.{Binding, Advisory};

use crate::fault::BookFault;
use pools::OutOfRange;
use std::fmt;

/// Whether postings move money. A month is settled in one standing.
#[derive(Clone, Copy, PartialEq, Eq, Debug)]
pub enum Standing {
    /// Postings move money.
    Binding,
    /// Postings only show what the money would be, until the book stands binding again.
    Advisory,
}

impl Standing {
    /// The word that is printed: BINDING or ADVISORY.
    pub fn word(self) -> &'static str
        ensures { result.now ≡ standing_word self }
    {
        match self {
            Standing::Binding => "BINDING",
            Standing::Advisory => "ADVISORY",
        }
    }

    /// What a book that takes no advisory months answers when it is stood: advisory is refused with `NoAdvisoryMonths`.
    pub(crate) fn only_binding(self) -> Result<(), BookFault>
        ensures { MatchResult result (λ _. self ≡ Binding) (λ e. (self ≡ Advisory) × (e ≡ NoAdvisoryMonths)) }
    {
        match self {
            Standing::Binding => Ok(()),
            Standing::Advisory => Err(BookFault::NoAdvisoryMonths),
        }
    }
}

/// 0 is binding, 1 advisory; any other number is handed back.
impl TryFrom<u32> for Standing {
    type Error = OutOfRange;

    ghost try_from_gives = { ReadsStanding };

    fn try_from(number: u32) -> Result<Standing, OutOfRange> {
        match number {
            0 => Ok(Standing::Binding),
            1 => Ok(Standing::Advisory),
            _ => Err(OutOfRange(number)),
        }
    }
}

impl fmt::Display for Standing {
    ghost output = { λ s. Some (standing_word s) };

    fn fmt<W: fmt::Write>(&self, f: &mut fmt::Formatter<W>) -> fmt::Result {
        f.write_str(self.word())
    }
}
