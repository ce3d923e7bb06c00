//! The amounts that lines and load entries tell, and that a total is taken of.
ghost use Rattle.settlement.specs.Closing.{line_tells};
ghost use Rattle.settlement.specs.Releasing.{load_tells};

use crate::tables::{LineEntry, LoadEntry};
use assessment::LineState;
use fund::TellsAmount;
use pools::Pool;

/// What can be totalled over entries of the line table.
#[derive(Clone, Copy, PartialEq, Eq, Debug)]
pub enum LineAmount {
    /// The cents of charged lines.
    Charges,
    /// The cents of lines in the state paid.
    Payments,
    /// The quantity, in W, of lines in the state paid, which are the eligible ones.
    EligibleQuantity,
}

/// What can be totalled over load entries.
#[derive(Clone, Copy, PartialEq, Eq, Debug)]
pub enum LoadAmount {
    /// The load, in GWh.
    Load,
    /// The share of this pool's fund, in cents.
    Share(Pool),
}

impl TellsAmount for LineEntry {
    type Selection = LineAmount;

    ghost told = { line_tells };

    fn amount(&self, selection: LineAmount) -> u64 {
        match (selection, self.line.state) {
            (LineAmount::Charges, LineState::Charged) => self.cents,
            (LineAmount::Payments, LineState::Paid) => self.cents,
            (LineAmount::EligibleQuantity, LineState::Paid) => self.line.quantity,
            _ => 0,
        }
    }
}

impl TellsAmount for LoadEntry {
    type Selection = LoadAmount;

    ghost told = { load_tells };

    fn amount(&self, selection: LoadAmount) -> u64 {
        match selection {
            LoadAmount::Load => self.load,
            LoadAmount::Share(pool) => self.shares.get(pool),
        }
    }
}
