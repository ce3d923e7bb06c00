//! The assessment of resource adequacy capacity: the trade month, availability
//! rules, one resource's day, and one line's month. No money is known here.
#![tactic(auto)]

mod calendar;
pub mod category;
mod checks;
pub mod day;
pub mod day_record;
pub mod day_result;
pub mod flexible_rule;
pub mod generic_rule;
mod hours;
pub mod known;
mod letters;
pub mod line;
pub mod month;
pub mod month_date;
mod rows;
pub mod rule;
pub mod rule_pair;
pub mod settings;
pub mod submission;
mod totals;
pub mod trade_month;
mod window;

pub use category::Category;
pub use day_record::{DatedRecord, DayRecord};
pub use day_result::{DAY_PLACES, DayFigures, DayResult, DayRow, Figures, PoolFigures, Watts};
pub use flexible_rule::FlexibleRule;
pub use generic_rule::GenericRule;
pub use known::june_2018_work_days;
pub use line::{Line, LineState, MonthLines};
pub use month_date::{DECEMBER, MonthDate};
pub use rule::AvailabilityRule;
pub use rule_pair::{RulePair, SHIPPED_RULES};
pub use settings::{MonthSettings, TradeDay};
pub use submission::{Bid, DayBreach, DaySubmission, HOURS, HourBids, Showing};
pub use trade_month::{DayKind, TradeMonth};
