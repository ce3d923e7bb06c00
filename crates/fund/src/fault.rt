//! Why a book refuses a call.
ghost use Rattle.std.specs.Prelude.{◌≡◌};
ghost use Rattle.fund.specs.Faults.{label};

use crate::label::Label;
use pools::Pool;
use thiserror::Error;

/// Why a book refuses a call, or is not made. Each has the number that its label tells.
#[derive(Clone, Copy, PartialEq, Eq, Debug, Drop, Error)]
pub enum BookFault {
    /// 30: a journal is to be made over fewer than 8 places, or over more than 65,536.
    #[error("a journal has 8 to 65,536 places")]
    UnfitPlaces,
    /// 31: a posting to this pool finds no free place. This is tested before the balance.
    #[error("no place is free for a posting to pool {0}")]
    NoFreePlace(Pool),
    /// 32: a posting in would bring this pool's shown balance above the limit.
    #[error("the balance of pool {0} would pass the limit")]
    OverLimit(Pool),
    /// 33: a posting out is of more than this pool's shown balance.
    #[error("more is taken out of pool {0} than it holds")]
    AboveBalance(Pool),
    /// 34: the book takes no advisory months, and is to stand advisory.
    #[error("this book keeps no advisory months")]
    NoAdvisoryMonths,
}

/// The letter of the layer of books.
const LAYER: char = 'B';

impl BookFault {
    /// The label by which the fault is told: its number, 30 to 34, the letter B, and as its place the pool of a posting.
    pub fn label(self) -> Label<Option<Pool>>
        ensures { result ≡ label self }
    {
        let (number, place) = match self {
            BookFault::UnfitPlaces => (30, None),
            BookFault::NoFreePlace(pool) => (31, Some(pool)),
            BookFault::OverLimit(pool) => (32, Some(pool)),
            BookFault::AboveBalance(pool) => (33, Some(pool)),
            BookFault::NoAdvisoryMonths => (34, None),
        };
        Label {
            number,
            layer: LAYER,
            place,
        }
    }
}
