//! The number, layer and offset by which a refusal is printed.
ghost use Rattle.std.specs.Prelude.{◌≡◌};
ghost use Rattle.statement.specs.Faults.{label};

use crate::fault::{Located, ReaderFault, StatementFault};
use fund::Label;

/// The letter of this layer.
const LAYER: char = 'R';

impl Located<StatementFault> {
    /// The fault's number, layer and byte offset. A fault of the settlement, or of its book, keeps its own number and letter.
    pub fn label(self) -> Label<usize>
        ensures { result ≡ label self }
    {
        let (number, layer) = match self.fault {
            StatementFault::Reader(ReaderFault::EndsInside) => (40, LAYER),
            StatementFault::Reader(ReaderFault::UnknownKind) => (41, LAYER),
            StatementFault::Reader(ReaderFault::Misplaced) => (43, LAYER),
            StatementFault::Settlement(fault) => {
                let told = fault.label();
                (told.number, told.layer)
            }
        };
        Label {
            number,
            layer,
            place: self.offset,
        }
    }
}
