//! The generic rule: its window on work days, and bids of either kind.
ghost use Rattle.assessment.specs.Rules.{generic_rule};
ghost use Rattle.std.proofs.Common.{rules};

use crate::category::Category;
use crate::rule::AvailabilityRule;
use crate::settings::TradeDay;
use crate::submission::Bid;
use crate::trade_month::DayKind;
use crate::window::in_window;

/// The generic rule that ships. It assesses the generic window on work days, in every category, and takes of the
/// economic bid before it takes of the self-schedule.
#[derive(Clone, Copy, PartialEq, Eq, Debug)]
pub struct GenericRule;

impl AvailabilityRule for GenericRule {
    ghost means = { λ _. generic_rule };

    ghost economic = { Prim.search rules };

    ghost scheduled = { Prim.search rules };

    ghost taken = { Prim.search rules };

    fn assesses(&self, day: &TradeDay, category: Category, hour: u32) -> bool {
        match day.kind {
            DayKind::WorkDay => in_window(day.settings.month.generic_start, hour),
            DayKind::OffDay => false,
        }
    }

    fn take(&self, obligation: u32, bid: Bid) -> (u32, u32) {
        let from_economic = obligation.min(bid.economic);
        let open = obligation - from_economic;
        (from_economic, open.min(bid.self_scheduled))
    }
}
