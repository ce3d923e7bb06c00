//! Why a month file has no statement.
ghost use Rattle.std.specs.Prelude.{◌≡◌};
ghost use Rattle.statement.specs.Refusals.{shown};
ghost use Rattle.statement.specs.declared.no_statement.NoStatement.TheVariants.{Refused, OutOfMemory};

use crate::fault::{Located, StatementFault};
use crate::rows::refusal_row;
use std::alloc::AllocError;
use std::error::Error;
use std::fmt;

/// The file is refused, or memory ran out.
#[derive(Clone, Copy, PartialEq, Eq, Debug, Drop)]
pub enum NoStatement {
    /// The file's first fault, and the byte offset at which it is told.
    Refused(Located<StatementFault>),
    /// Memory ran out for the bytes of the statement. The file is settled.
    OutOfMemory,
}

/// The text stands in the contract: a refusal is shown as its line.
impl fmt::Display for NoStatement {
    ghost output = { shown };

    fn fmt<W: fmt::Write>(&self, f: &mut fmt::Formatter<W>) -> fmt::Result {
        match self {
            NoStatement::Refused(told) => write!(f, "{}", refusal_row(*told)),
            NoStatement::OutOfMemory => write!(f, "memory allocation failed"),
        }
    }
}

impl Error for NoStatement {}

/// A fault told at its byte offset is a refusal.
// By hand, as the next: contracts name the case that `?` makes, and a derived conversion has no contract.
impl<F> From<Located<F>> for NoStatement
where
    StatementFault: From<F>,
{
    ghost from_gives = { λ e r. (f : _) × (r ≡ Refused (record { fault = f; offset = e.offset })) × bound-1.from_gives e.fault f };

    fn from(Located { fault, offset }: Located<F>) -> NoStatement {
        let fault = StatementFault::from(fault);
        NoStatement::Refused(Located { fault, offset })
    }
}

/// A failed allocation is the want of memory.
impl From<AllocError> for NoStatement {
    ghost from_gives = { λ _ r. r ≡ OutOfMemory };

    fn from(_e: AllocError) -> NoStatement {
        NoStatement::OutOfMemory
    }
}
