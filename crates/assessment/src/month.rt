//! A resource's month by any two rules: its two lines, from its 31 day places.
ghost use Rattle.std.specs.Prelude.{◌≡◌, ◌+◌, ◌*◌, ◌≤◌, IfSome, MatchOption};
ghost use Rattle.assessment.specs.Laws.{LinesLaw};
ghost use Rattle.assessment.specs.Lines.{RowsWithin, plus, has_hours, assessed_days, line_of, lines_of};
ghost use Rattle.assessment.specs.Pairs.{rules_of};

use crate::category::Category;
use crate::day_result::{DAY_PLACES, DayResult, DayRow, PoolFigures, Watts};
use crate::line::{Line, LineState, MonthLines};
use crate::rule::AvailabilityRule;
use crate::rule_pair::RulePair;
use crate::settings::{MonthSettings, TradeDay};
use crate::submission::HOURS;
use pools::PerPool;
use std::ops::Add;

/// The last hour ending of a day. `as` loses nothing: it is 24.
const LAST_HOUR: u32 = HOURS as u32;

fn rule_has_hours<R: AvailabilityRule>(rule: &R, day: &TradeDay, category: Category) -> bool
    ensures { result ≡ has_hours (R.means rule.now) day.now.settings.month category.number day.now.day }
{
    // Half-open, as are the days below: an inclusive range asks at each step whether it is spent.
    (1..LAST_HOUR + 1).any(|hour| rule.assesses(day, category, hour))
}

fn days_assessed<R: AvailabilityRule>(rule: &R, settings: &MonthSettings, category: Category) -> u32
    ensures { result ≡ assessed_days (R.means rule.now) settings.now.month category.number }
{
    // A sum of zeros and ones: `filter` with `count` would branch at each day.
    (1..settings.days + 1)
        .map(|day| u32::from(rule_has_hours(rule, &settings.trade_day(day), category)))
        .sum()
}

/// Watts of a pool, summed over days of a month: at most 62,000,000,000, so that a line's products fit 64 bits.
#[derive(Clone, Copy, PartialEq, Eq, Debug)]
struct MonthSum {
    watts: Watts,
    ghost within: { watts.availability ≤ watts.obligation },
    ghost capped: { watts.obligation ≤ 62000000000 },
}

/// No days: 0 W.
// By hand: none is derived for a struct with ghost fields.
impl Default for MonthSum {
    ghost is_default = { λ sum. sum.watts ≡ record { obligation = 0; availability = 0 } };

    fn default() -> MonthSum {
        MonthSum {
            watts: Watts::default(),
        }
    }
}

impl Add<PoolFigures> for MonthSum {
    type Output = MonthSum;

    ghost can_add = { λ sum day. (day.availability ≤ day.obligation) × (sum.watts.obligation + day.obligation ≤ 62000000000) };

    ghost add_gives = { λ sum day r. r.watts ≡ plus sum.watts day };

    fn add(self, day: PoolFigures) -> MonthSum {
        MonthSum {
            watts: self.watts + Watts::from(day),
        }
    }
}

impl MonthSum {
    /// The pool's line, by the days on which its rule has hours.
    fn line(self, days: u32) -> Line
        ensures { result ≡ line_of self.watts.obligation self.watts.availability days }
    {
        let Watts {
            obligation,
            availability,
        } = self.watts;
        let (state, quantity) = match (obligation, days) {
            (0, _) | (_, 0) => (LineState::Empty, 0),
            (_, days) if 1000 * availability < 945 * obligation => (
                LineState::Charged,
                (945 * obligation - 1000 * availability) / (1000 * u64::from(days)),
            ),
            (_, days) if 1000 * availability > 985 * obligation => (
                LineState::Paid,
                (1000 * availability - 985 * obligation) / (1000 * u64::from(days)),
            ),
            _ => (LineState::Neutral, 0),
        };
        Line {
            obligation,
            availability,
            days,
            state,
            quantity,
        }
    }
}

impl<G: AvailabilityRule, F: AvailabilityRule> RulePair<G, F> {
    /// The two lines of a resource, from its places of the day table. None if there are not 31 of them, or a row is past
    /// a day result's limits. Every row counts, also one past the month's end.
    pub fn month_lines(
        &self,
        settings: &MonthSettings,
        category: Category,
        rows: &[DayRow],
    ) -> Option<MonthLines>
        ensures is { MatchOption result (RowsWithin rows.now → ⊥) (λ l. RowsWithin rows.now × (l ≡ lines_of (rules_of G.means F.means self.now) settings.now.month category.number rows.now)) }
        ensures law { IfSome result LinesLaw }
    {
        if rows.len() != DAY_PLACES {
            return None;
        }
        let mut sums: PerPool<MonthSum> = PerPool::default();
        for row in rows {
            let day = DayResult::of_row(*row)?;
            sums = PerPool::of(|pool| sums.get(pool) + day.figures.get(pool));
        }
        let days = PerPool {
            generic: days_assessed(&self.generic, settings, category),
            flexible: days_assessed(&self.flexible, settings, category),
        };
        Some(PerPool::of(|pool| sums.get(pool).line(days.get(pool))))
    }
}
