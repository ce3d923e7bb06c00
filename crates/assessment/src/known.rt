//! Figures known from outside, held against the definitions.
ghost use Rattle.std.specs.Prelude.{◌≡◌};
ghost use Rattle.assessment.specs.Known.{KnownFiguresAgree};

use crate::settings::MonthSettings;
use crate::trade_month::TradeMonth;

/// The work days of June 2018 without holiday marks. The contract also holds the table of known figures
/// (specs/Known.antt), which the prover has to meet here.
pub fn june_2018_work_days() -> u32
    ensures figures { KnownFiguresAgree }
    ensures counted { result ≡ 21 }
{
    let june = TradeMonth {
        year: 2018,
        month: 6,
        holidays: 0,
        generic_start: 1,
        category2_start: 3,
        category3_start: 16,
    };
    MonthSettings::new(june).unwrap().work_days()
}
