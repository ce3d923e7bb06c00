//! Why a month file is refused: a fault of the reader, or of the settlement, at a byte offset.
ghost use Rattle.std.specs.Prelude.{◌≡◌};
ghost use Rattle.statement.specs.Located.{placed};
ghost use Rattle.statement.specs.declared.fault.StatementFault.TheVariants.{Reader, Settlement};

use settlement::SettlementFault;
use std::fmt::Display;
use thiserror::Error;

/// What is wrong with a record before it is used.
#[derive(Clone, Copy, PartialEq, Eq, Debug, Drop, Error)]
pub enum ReaderFault {
    /// Fewer bytes are left than the record takes, or none in an empty file (40).
    #[error("the file ends inside a record")]
    EndsInside,
    /// The record's first word is not 1, 2 or 3 (41).
    #[error("a record is of no known kind")]
    UnknownKind,
    /// A record where one of another kind is due, or a resource out of its number (43).
    #[error("a record is out of its place, or misnumbered")]
    Misplaced,
}

/// Why a month file is refused.
#[derive(Clone, Copy, PartialEq, Eq, Debug, Drop, Error)]
pub enum StatementFault {
    /// By what reads the file.
    #[error(transparent)]
    Reader(ReaderFault),
    /// By the settlement, or by its book.
    #[error(transparent)]
    Settlement(SettlementFault),
}

/// A fault, and the byte offset at which it is told.
#[derive(Clone, Copy, PartialEq, Eq, Debug, Drop, Error)]
#[error_bound(F: Display)]
#[error("{fault}, at byte {offset}")]
pub struct Located<F> {
    /// What is wrong.
    pub fault: F,
    /// The first byte of the record at fault, counted from 0; the file's length for a fault of the close.
    pub offset: usize,
}

/// A fault of what reads the file.
// By hand, as the next: contracts name the case that `?` makes, and a derived conversion has no contract.
impl From<ReaderFault> for StatementFault {
    ghost from_gives = { λ e r. r ≡ Reader e };

    fn from(e: ReaderFault) -> StatementFault {
        StatementFault::Reader(e)
    }
}

/// A fault of the settlement.
impl From<SettlementFault> for StatementFault {
    ghost from_gives = { λ e r. r ≡ Settlement e };

    fn from(e: SettlementFault) -> StatementFault {
        StatementFault::Settlement(e)
    }
}

/// A fault of what reads the file, told at the same offset.
// By hand, as the next: contracts name what `?` makes.
impl From<Located<ReaderFault>> for Located<StatementFault> {
    ghost from_gives = { λ e r. r ≡ record { fault = Reader e.fault; offset = e.offset } };

    fn from(Located { fault, offset }: Located<ReaderFault>) -> Located<StatementFault> {
        let fault = StatementFault::Reader(fault);
        Located { fault, offset }
    }
}

/// A fault of the settlement, told at the same offset.
impl From<Located<SettlementFault>> for Located<StatementFault> {
    ghost from_gives = { λ e r. r ≡ record { fault = Settlement e.fault; offset = e.offset } };

    fn from(Located { fault, offset }: Located<SettlementFault>) -> Located<StatementFault> {
        let fault = StatementFault::Settlement(fault);
        Located { fault, offset }
    }
}

/// The same answer, with a fault told at the offset.
pub(crate) fn at_offset<T, F>(answer: Result<T, F>, offset: usize) -> Result<T, Located<F>>
    ensures { result ≡ placed answer offset }
{
    answer.map_err(|fault| Located { fault, offset })
}
