//! Recording a resource's day.
ghost use Rattle.std.specs.Prelude.{◌≡◌};
ghost use Rattle.settlement.specs.Recording.{fault_for, Records};
ghost use Rattle.settlement.specs.Runs.{RecordGoesOn};
ghost use Rattle.assessment.specs.Pairs.{rules_of};
ghost use Rattle.settlement.specs.Views.{view, phase_of};

use crate::checks::days_fit;
use crate::fault::{ResourceDay, SettlementFault};
use crate::settlement::Settlement;
use crate::stage::Stage;
use crate::tables::{RosterEntry, SubmittedDay};
use assessment::{
    AvailabilityRule, DAY_PLACES, DatedRecord, DayBreach, DayFigures, DayRecord, DayRow,
};
use fund::FundBook;

/// The fault that tells a breach of the day's limits.
fn breach_fault(breach: DayBreach, at: ResourceDay) -> SettlementFault
    ensures { result ≡ fault_for breach at }
{
    match breach {
        DayBreach::KilowattsOverLimit | DayBreach::ExemptionOverShowing => {
            SettlementFault::DayOverLimit(at)
        }
        DayBreach::FlexibleInCategory0 => SettlementFault::FlexibleInCategory0(at),
    }
}

impl<B: FundBook, G: AvailabilityRule, F: AvailabilityRule> Settlement<B, G, F> {
    /// Assesses the day by the two rules, writes its figures to the day's place of the day table, and answers them, in W. Refused,
    /// whichever comes first: `UnfitTables`; `OutOfTurn` where no month is open; and of the day `UnknownResource`, `NoSuchDay`,
    /// `AlreadyRecorded`, `DayOverLimit` and `FlexibleInCategory0`.
    pub fn record(
        &self,
        roster: &[RosterEntry],
        rows: &mut [DayRow],
        day: &SubmittedDay,
    ) -> Result<DayFigures, SettlementFault>
        ensures does { Records (rules_of G.means F.means self.now.rules) (phase_of self.now.stage) roster.now rows.old day.now.at day.now.submission result rows.new }
        ensures runs { RecordGoesOn B.means B.sound (rules_of G.means F.means self.now.rules) (view B.state self.now) roster.now rows.old day.now result rows.new }
    {
        if !days_fit(roster, rows) {
            return Err(SettlementFault::UnfitTables);
        }
        let Stage::Open(month) = self.stage else {
            return Err(SettlementFault::OutOfTurn);
        };
        // The casts here lose nothing: any u32 fits a usize.
        let resource = day.at.resource as usize;
        let entry = roster
            .get(resource)
            .ok_or(SettlementFault::UnknownResource(day.at))?;
        let trade_day = month
            .settings
            .day(day.at.day)
            .ok_or(SettlementFault::NoSuchDay(day.at))?;
        let place = DAY_PLACES * resource + (day.at.day - 1) as usize;
        if rows[place].is_some() {
            return Err(SettlementFault::AlreadyRecorded(day.at));
        }
        let category = entry.category().unwrap();
        let record = DayRecord::new(category, &day.submission).map_err(|breach| {
            breach_fault(breach, day.at)
        })?;
        let submitted = DatedRecord {
            day: trade_day,
            record,
        };
        let result = self.rules.assess_day(&submitted);
        rows[place] = result.row();
        Ok(result.figures)
    }
}
