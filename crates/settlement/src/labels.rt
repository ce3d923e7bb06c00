//! The number, layer and place by which a fault is told.
ghost use Rattle.std.specs.Prelude.{◌≡◌};
ghost use Rattle.settlement.specs.Faults.{label};

use crate::fault::{FaultPlace, SettlementFault};
use fund::Label;

/// The letter of the settlement's own layer.
const LAYER: char = 'S';

impl SettlementFault {
    /// The label of a fault: its number, 10 to 20 but never 14, the letter S, and as its place the resource's day for 16 to 20,
    /// none for the others. A book's fault keeps its own number, letter and pool.
    pub fn label(self) -> Label<Option<FaultPlace>>
        ensures { result ≡ label self }
    {
        let (number, place) = match self {
            SettlementFault::UnfitTables => (10, None),
            SettlementFault::OutOfTurn => (11, None),
            SettlementFault::UnfitTerms => (12, None),
            SettlementFault::NotNextMonth => (13, None),
            SettlementFault::UnfitLoads => (15, None),
            SettlementFault::UnknownResource(at) => (16, Some(FaultPlace::Day(at))),
            SettlementFault::NoSuchDay(at) => (17, Some(FaultPlace::Day(at))),
            SettlementFault::AlreadyRecorded(at) => (18, Some(FaultPlace::Day(at))),
            SettlementFault::DayOverLimit(at) => (19, Some(FaultPlace::Day(at))),
            SettlementFault::FlexibleInCategory0(at) => (20, Some(FaultPlace::Day(at))),
            SettlementFault::Book(fault) => {
                let told = fault.label();
                return Label {
                    number: told.number,
                    layer: told.layer,
                    place: told.place.map(FaultPlace::Pool),
                };
            }
        };
        Label {
            number,
            layer: LAYER,
            place,
        }
    }
}
