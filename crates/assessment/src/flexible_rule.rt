//! The flexible rule: the hours of each category, and economic bids only.
ghost use Rattle.assessment.specs.Rules.{flexible_rule};
ghost use Rattle.std.proofs.Common.{rules};

use crate::category::Category;
use crate::rule::AvailabilityRule;
use crate::settings::TradeDay;
use crate::submission::Bid;
use crate::trade_month::DayKind;
use crate::window::in_window;

/// The flexible rule that ships. It assesses no hour in category 0, hours ending 6 to 22 of every day in category 1, the
/// category's window on every day in 2 and on work days in 3. Self-schedules do not count.
#[derive(Clone, Copy, PartialEq, Eq, Debug)]
pub struct FlexibleRule;

impl AvailabilityRule for FlexibleRule {
    ghost means = { λ _. flexible_rule };

    ghost economic = { Prim.search rules };

    ghost scheduled = { Prim.search rules };

    ghost taken = { Prim.search rules };

    fn assesses(&self, day: &TradeDay, category: Category, hour: u32) -> bool {
        let month = day.settings.month;
        match (day.kind, category.number) {
            (_, 1) => (6..=22).contains(&hour),
            (_, 2) => in_window(month.category2_start, hour),
            (DayKind::WorkDay, 3..) => in_window(month.category3_start, hour),
            (_, 0) | (DayKind::OffDay, 3..) => false,
        }
    }

    fn take(&self, obligation: u32, bid: Bid) -> (u32, u32) {
        (obligation.min(bid.economic), 0)
    }
}
