//! Known figures and limits at their edges, through the public calls.
use assessment::{
    Bid, Category, DAY_PLACES, DatedRecord, DayBreach, DayFigures, DayRecord, DayRow,
    DaySubmission, HOURS, HourBids, MonthSettings, PoolFigures, SHIPPED_RULES, Showing, TradeMonth,
};
use pools::PerPool;
use std::test::Fail;

const JUNE: TradeMonth = TradeMonth {
    year: 2018,
    month: 6,
    holidays: 0,
    generic_start: 1,
    category2_start: 3,
    category3_start: 20,
};

fn is_taken(month: TradeMonth) -> bool {
    MonthSettings::new(month).is_some()
}

fn submission(generic: Showing, flexible: Showing, bid: Bid) -> DaySubmission {
    DaySubmission {
        showings: PerPool { generic, flexible },
        hours: [HourBids::from(bid); HOURS],
    }
}

fn net(shown: u32) -> Showing {
    Showing { shown, exempt: 0 }
}

const MARK_ON_DAY_31: u32 = 0x4000_0000;

const REFUSED_MONTHS: [TradeMonth; 6] = [
    TradeMonth { year: 2017, ..JUNE },
    TradeMonth { year: 2100, ..JUNE },
    TradeMonth { month: 13, ..JUNE },
    TradeMonth {
        holidays: MARK_ON_DAY_31,
        ..JUNE
    },
    TradeMonth {
        generic_start: 0,
        ..JUNE
    },
    TradeMonth {
        category3_start: 21,
        ..JUNE
    },
];

#[test]
fn month_limits(rt: HostRuntime) {
    assert!(rt; is_taken(JUNE));
    assert!(rt;
        is_taken(TradeMonth {
            year: 2099,
            month: 12,
            holidays: 0x7fff_ffff,
            ..JUNE
        })
    );
    for month in REFUSED_MONTHS {
        assert!(rt; !is_taken(month));
    }
}

/// What is broken by a day of this category; None where it is taken, or where there is no such category.
fn breach(category: u32, submission: DaySubmission) -> Option<DayBreach> {
    let category = Category::try_from(category).ok()?;
    DayRecord::new(category, &submission).err()
}

#[test]
fn day_limits(rt: HostRuntime) {
    let most = Bid {
        economic: 2_000_000,
        self_scheduled: 2_000_000,
    };
    let over = Bid {
        economic: 0,
        self_scheduled: 2_000_001,
    };
    let exempt = Showing {
        shown: 5,
        exempt: 6,
    };
    assert_eq!(rt;
        breach(1, submission(net(2_000_000), net(2_000_000), most)),
        None
    );
    assert_eq!(rt;
        breach(1, submission(net(2_000_001), net(0), most)),
        Some(DayBreach::KilowattsOverLimit)
    );
    assert_eq!(rt;
        breach(0, submission(exempt, net(1), over)),
        Some(DayBreach::KilowattsOverLimit)
    );
    assert_eq!(rt;
        breach(0, submission(exempt, net(1), most)),
        Some(DayBreach::ExemptionOverShowing)
    );
    assert_eq!(rt;
        breach(0, submission(net(5), net(1), most)),
        Some(DayBreach::FlexibleInCategory0)
    );
}

#[test]
fn partly_overlapping_windows(rt: HostRuntime) -> Result<(), Fail> {
    let june = MonthSettings::new(JUNE).ok_or_else(|| Fail::new("June 2018 is refused"))?;
    let monday = june.day(4).ok_or_else(|| Fail::new("4 June is refused"))?;
    let peak = Category::try_from(2).map_err(|_| Fail::new("category 2 is refused"))?;
    let bid = Bid {
        economic: 0,
        self_scheduled: 1000,
    };
    let submitted = submission(net(2000), net(1000), bid);
    let record = DayRecord::new(peak, &submitted).map_err(|_| Fail::new("the day is refused"))?;
    let dated = DatedRecord {
        day: monday,
        record,
    };
    let figures = SHIPPED_RULES.assess_day(&dated).figures;
    assert_eq!(rt; figures.generic.obligation, 1_166_666);
    assert_eq!(rt; figures.generic.availability, 833_333);
    assert_eq!(rt; figures.flexible.obligation, 833_333);
    assert_eq!(rt; figures.flexible.availability, 0);
    Ok(())
}

fn row(obligation: u32, availability: u32) -> DayRow {
    Some(DayFigures {
        generic: PoolFigures {
            obligation,
            availability,
        },
        flexible: PoolFigures::default(),
    })
}

/// The letter and quantity of the generic line of one recorded day in June 2018; None where it is refused.
fn generic_line(day: DayRow) -> Option<(u8, u64)> {
    let june = MonthSettings::new(JUNE)?;
    let category = Category::try_from(0).ok()?;
    let mut rows = [None; DAY_PLACES];
    rows[3] = day;
    let line = SHIPPED_RULES.month_lines(&june, category, &rows)?.generic;
    Some((line.state.letter(), line.quantity))
}

#[test]
fn bounds_of_a_line(rt: HostRuntime) {
    assert_eq!(rt; generic_line(row(200_000, 188_999)), Some((b'C', 0)));
    assert_eq!(rt; generic_line(row(200_000, 189_000)), Some((b'N', 0)));
    assert_eq!(rt; generic_line(row(200_000, 197_000)), Some((b'N', 0)));
    assert_eq!(rt; generic_line(row(200_000, 197_001)), Some((b'P', 0)));
    assert_eq!(rt;
        generic_line(row(2_000_000_000, 0)),
        Some((b'C', 90_000_000))
    );
    assert_eq!(rt; generic_line(row(2_000_000_001, 0)), None);
    assert_eq!(rt; generic_line(row(1, 2)), None);
}
