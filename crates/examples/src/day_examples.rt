//! The examples of a single day. A weekday is Monday 4 June 2018 or the day
//! after it, a weekend day Saturday 2 June 2018.
use crate::example::{Check, Example};
use crate::months::{JUNE_2018, JUNE_2018_EARLY};
use crate::plan::{NOTHING, Offer, Plan, PlannedDay};
use crate::published::{
    MW_0, MW_0_833, MW_1, MW_1_167, MW_5, MW_20, MW_40, MW_50, MW_100, PER_CENT_0, PER_CENT_71_43,
    PER_CENT_80, PER_CENT_100,
};
use crate::reading::{DayReading, Part};
use assessment::Bid;
use pools::{PerPool, Pool};

/// The examples of a single day, in the order of printing. What is shown and bid is in kW, exact figures in W or millionths.
pub static DAY_EXAMPLES: [Example<PlannedDay, DayReading>; 10] = [
    Example {
        name: "Separate products on a weekday: 1 MW generic, nothing bid",
        month: JUNE_2018,
        case: PlannedDay {
            day: 4,
            plan: Plan {
                category: 1,
                shown: PerPool {
                    generic: 1_000,
                    flexible: 0,
                },
                offer: Offer::EveryHour(NOTHING),
            },
        },
        checks: &[
            Check {
                part: Part::Of(Pool::Generic),
                reading: DayReading::Obligation,
                exact: 1_000_000,
                published: Some(MW_1),
            },
            Check {
                part: Part::Of(Pool::Generic),
                reading: DayReading::Availability,
                exact: 0,
                published: Some(MW_0),
            },
            Check {
                part: Part::Of(Pool::Flexible),
                reading: DayReading::Obligation,
                exact: 0,
                published: None,
            },
            Check {
                part: Part::Of(Pool::Flexible),
                reading: DayReading::Availability,
                exact: 0,
                published: None,
            },
        ],
        note: None,
    },
    Example {
        name: "Separate products on a weekend day: 1 MW flexible, all of it bid",
        month: JUNE_2018,
        case: PlannedDay {
            day: 2,
            plan: Plan {
                category: 1,
                shown: PerPool {
                    generic: 0,
                    flexible: 1_000,
                },
                offer: Offer::EveryHour(Bid {
                    economic: 1_000,
                    self_scheduled: 0,
                }),
            },
        },
        checks: &[
            Check {
                part: Part::Of(Pool::Generic),
                reading: DayReading::Obligation,
                exact: 0,
                published: None,
            },
            Check {
                part: Part::Of(Pool::Generic),
                reading: DayReading::Availability,
                exact: 0,
                published: None,
            },
            Check {
                part: Part::Of(Pool::Flexible),
                reading: DayReading::Obligation,
                exact: 1_000_000,
                published: Some(MW_1),
            },
            Check {
                part: Part::Of(Pool::Flexible),
                reading: DayReading::Availability,
                exact: 1_000_000,
                published: Some(MW_1),
            },
        ],
        note: None,
    },
    Example {
        name: "Separate products on a second weekday: 1 MW generic, all of it bid",
        month: JUNE_2018,
        case: PlannedDay {
            day: 5,
            plan: Plan {
                category: 1,
                shown: PerPool {
                    generic: 1_000,
                    flexible: 0,
                },
                offer: Offer::EveryHour(Bid {
                    economic: 1_000,
                    self_scheduled: 0,
                }),
            },
        },
        checks: &[
            Check {
                part: Part::Of(Pool::Generic),
                reading: DayReading::Obligation,
                exact: 1_000_000,
                published: Some(MW_1),
            },
            Check {
                part: Part::Of(Pool::Generic),
                reading: DayReading::Availability,
                exact: 1_000_000,
                published: Some(MW_1),
            },
            Check {
                part: Part::Of(Pool::Flexible),
                reading: DayReading::Obligation,
                exact: 0,
                published: None,
            },
            Check {
                part: Part::Of(Pool::Flexible),
                reading: DayReading::Availability,
                exact: 0,
                published: None,
            },
        ],
        note: None,
    },
    Example {
        name: "Full overlap: 2 MW generic, 1 MW flexible, 2 MW self-scheduled",
        month: JUNE_2018,
        case: PlannedDay {
            day: 4,
            plan: Plan {
                category: 1,
                shown: PerPool {
                    generic: 2_000,
                    flexible: 1_000,
                },
                offer: Offer::EveryHour(Bid {
                    economic: 0,
                    self_scheduled: 2_000,
                }),
            },
        },
        checks: &[
            Check {
                part: Part::Of(Pool::Generic),
                reading: DayReading::Obligation,
                exact: 1_000_000,
                published: None,
            },
            Check {
                part: Part::Of(Pool::Generic),
                reading: DayReading::Availability,
                exact: 1_000_000,
                published: None,
            },
            Check {
                part: Part::Of(Pool::Flexible),
                reading: DayReading::Obligation,
                exact: 1_000_000,
                published: None,
            },
            Check {
                part: Part::Of(Pool::Flexible),
                reading: DayReading::Availability,
                exact: 0,
                published: None,
            },
            Check {
                part: Part::Of(Pool::Generic),
                reading: DayReading::Share,
                exact: 1_000_000,
                published: Some(PER_CENT_100),
            },
            Check {
                part: Part::Of(Pool::Flexible),
                reading: DayReading::Share,
                exact: 0,
                published: Some(PER_CENT_0),
            },
        ],
        note: None,
    },
    Example {
        name: "Windows 1 to 5 and 3 to 7 overlap in part: 2 MW generic, 1 MW flexible, 1 MW self-scheduled",
        month: JUNE_2018_EARLY,
        case: PlannedDay {
            day: 4,
            plan: Plan {
                category: 2,
                shown: PerPool {
                    generic: 2_000,
                    flexible: 1_000,
                },
                offer: Offer::EveryHour(Bid {
                    economic: 0,
                    self_scheduled: 1_000,
                }),
            },
        },
        checks: &[
            Check {
                part: Part::Of(Pool::Generic),
                reading: DayReading::Obligation,
                exact: 1_166_666,
                published: Some(MW_1_167),
            },
            Check {
                part: Part::Of(Pool::Generic),
                reading: DayReading::Availability,
                exact: 833_333,
                published: Some(MW_0_833),
            },
            Check {
                part: Part::Of(Pool::Flexible),
                reading: DayReading::Obligation,
                exact: 833_333,
                published: Some(MW_0_833),
            },
            Check {
                part: Part::Of(Pool::Flexible),
                reading: DayReading::Availability,
                exact: 0,
                published: Some(MW_0),
            },
            Check {
                part: Part::Of(Pool::Generic),
                reading: DayReading::Share,
                exact: 714_285,
                published: Some(PER_CENT_71_43),
            },
        ],
        note: None,
    },
    Example {
        name: "25 MW generic, 5 MW flexible, all of it bid",
        month: JUNE_2018,
        case: PlannedDay {
            day: 4,
            plan: Plan {
                category: 1,
                shown: PerPool {
                    generic: 25_000,
                    flexible: 5_000,
                },
                offer: Offer::EveryHour(Bid {
                    economic: 25_000,
                    self_scheduled: 0,
                }),
            },
        },
        checks: &[
            Check {
                part: Part::Of(Pool::Generic),
                reading: DayReading::Obligation,
                exact: 20_000_000,
                published: Some(MW_20),
            },
            Check {
                part: Part::Of(Pool::Generic),
                reading: DayReading::Availability,
                exact: 20_000_000,
                published: None,
            },
            Check {
                part: Part::Of(Pool::Flexible),
                reading: DayReading::Obligation,
                exact: 5_000_000,
                published: Some(MW_5),
            },
            Check {
                part: Part::Of(Pool::Flexible),
                reading: DayReading::Availability,
                exact: 5_000_000,
                published: None,
            },
        ],
        note: None,
    },
    Example {
        name: "100 MW generic, 50 MW flexible, all of it self-scheduled",
        month: JUNE_2018,
        case: PlannedDay {
            day: 4,
            plan: Plan {
                category: 1,
                shown: PerPool {
                    generic: 100_000,
                    flexible: 50_000,
                },
                offer: Offer::EveryHour(Bid {
                    economic: 0,
                    self_scheduled: 100_000,
                }),
            },
        },
        checks: &[
            Check {
                part: Part::Of(Pool::Generic),
                reading: DayReading::Obligation,
                exact: 50_000_000,
                published: Some(MW_50),
            },
            Check {
                part: Part::Of(Pool::Generic),
                reading: DayReading::Availability,
                exact: 50_000_000,
                published: Some(MW_50),
            },
            Check {
                part: Part::Of(Pool::Flexible),
                reading: DayReading::Obligation,
                exact: 50_000_000,
                published: Some(MW_50),
            },
            Check {
                part: Part::Of(Pool::Flexible),
                reading: DayReading::Availability,
                exact: 0,
                published: Some(MW_0),
            },
        ],
        note: None,
    },
    Example {
        name: "Three hours of overlap: 100 MW generic, 100 MW flexible, nothing bid",
        month: JUNE_2018,
        case: PlannedDay {
            day: 4,
            plan: Plan {
                category: 2,
                shown: PerPool {
                    generic: 100_000,
                    flexible: 100_000,
                },
                offer: Offer::EveryHour(NOTHING),
            },
        },
        checks: &[
            Check {
                part: Part::Of(Pool::Generic),
                reading: DayReading::Obligation,
                exact: 28_571_428,
                published: None,
            },
            Check {
                part: Part::Of(Pool::Generic),
                reading: DayReading::Availability,
                exact: 0,
                published: None,
            },
            Check {
                part: Part::Of(Pool::Flexible),
                reading: DayReading::Obligation,
                exact: 71_428_571,
                published: None,
            },
            Check {
                part: Part::Of(Pool::Flexible),
                reading: DayReading::Availability,
                exact: 0,
                published: None,
            },
            Check {
                part: Part::Combined,
                reading: DayReading::Obligation,
                exact: 99_999_999,
                published: Some(MW_100),
            },
        ],
        note: None,
    },
    Example {
        name: "An outage of one hour: 100 MW generic, all of it bid in the other hours",
        month: JUNE_2018,
        case: PlannedDay {
            day: 4,
            plan: Plan {
                category: 0,
                shown: PerPool {
                    generic: 100_000,
                    flexible: 0,
                },
                offer: Offer::AllBut(
                    18,
                    Bid {
                        economic: 100_000,
                        self_scheduled: 0,
                    },
                ),
            },
        },
        checks: &[
            Check {
                part: Part::Of(Pool::Generic),
                reading: DayReading::Obligation,
                exact: 100_000_000,
                published: None,
            },
            Check {
                part: Part::Of(Pool::Generic),
                reading: DayReading::Availability,
                exact: 80_000_000,
                published: None,
            },
            Check {
                part: Part::Of(Pool::Flexible),
                reading: DayReading::Obligation,
                exact: 0,
                published: None,
            },
            Check {
                part: Part::Of(Pool::Flexible),
                reading: DayReading::Availability,
                exact: 0,
                published: None,
            },
            Check {
                part: Part::Of(Pool::Generic),
                reading: DayReading::Share,
                exact: 800_000,
                published: Some(PER_CENT_80),
            },
        ],
        note: None,
    },
    Example {
        name: "A mix: 100 MW generic, 70 MW flexible, 10 MW bid, 90 MW self-scheduled",
        month: JUNE_2018,
        case: PlannedDay {
            day: 4,
            plan: Plan {
                category: 1,
                shown: PerPool {
                    generic: 100_000,
                    flexible: 70_000,
                },
                offer: Offer::EveryHour(Bid {
                    economic: 10_000,
                    self_scheduled: 90_000,
                }),
            },
        },
        checks: &[
            Check {
                part: Part::Of(Pool::Generic),
                reading: DayReading::Obligation,
                exact: 30_000_000,
                published: None,
            },
            Check {
                part: Part::Of(Pool::Generic),
                reading: DayReading::Availability,
                exact: 30_000_000,
                published: None,
            },
            Check {
                part: Part::Of(Pool::Flexible),
                reading: DayReading::Obligation,
                exact: 70_000_000,
                published: None,
            },
            Check {
                part: Part::Of(Pool::Flexible),
                reading: DayReading::Availability,
                exact: 10_000_000,
                published: None,
            },
            Check {
                part: Part::Combined,
                reading: DayReading::Obligation,
                exact: 100_000_000,
                published: Some(MW_100),
            },
            Check {
                part: Part::Combined,
                reading: DayReading::Availability,
                exact: 40_000_000,
                published: Some(MW_40),
            },
        ],
        note: None,
    },
];
