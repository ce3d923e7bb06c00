//! The examples of a whole month.
use crate::example::{Check, Example};
use crate::months::{APRIL_2018, JUNE_2018};
use crate::plan::{NOTHING, Offer, Plan};
use crate::published::{MW_0_95, MW_1, MW_20_55, PER_CENT_50};
use crate::reading::LineReading;
use crate::stretch::{PlannedMonth, Stretch};
use assessment::Bid;
use pools::{PerPool, Pool};

/// The examples of a whole month, in the order of printing. What is shown and bid is in kW, exact figures in W, days or
/// millionths.
pub static MONTH_EXAMPLES: [Example<PlannedMonth, LineReading>; 6] = [
    Example {
        name: "The two weekdays of the separate products together",
        month: JUNE_2018,
        case: PlannedMonth {
            category: 1,
            stretches: &[
                Stretch {
                    first: 4,
                    last: 4,
                    plan: Plan {
                        category: 1,
                        shown: PerPool {
                            generic: 1_000,
                            flexible: 0,
                        },
                        offer: Offer::EveryHour(NOTHING),
                    },
                },
                Stretch {
                    first: 5,
                    last: 5,
                    plan: Plan {
                        category: 1,
                        shown: PerPool {
                            generic: 1_000,
                            flexible: 0,
                        },
                        offer: Offer::EveryHour(Bid {
                            economic: 1_000,
                            self_scheduled: 0,
                        }),
                    },
                },
            ],
        },
        checks: &[
            Check {
                part: Pool::Generic,
                reading: LineReading::Obligation,
                exact: 2_000_000,
                published: None,
            },
            Check {
                part: Pool::Generic,
                reading: LineReading::Availability,
                exact: 1_000_000,
                published: None,
            },
            Check {
                part: Pool::Generic,
                reading: LineReading::Share,
                exact: 500_000,
                published: Some(PER_CENT_50),
            },
        ],
        note: None,
    },
    Example {
        name: "10 MW generic on 2 of 21 days",
        month: JUNE_2018,
        case: PlannedMonth {
            category: 0,
            stretches: &[Stretch {
                first: 4,
                last: 5,
                plan: Plan {
                    category: 0,
                    shown: PerPool {
                        generic: 10_000,
                        flexible: 0,
                    },
                    offer: Offer::EveryHour(NOTHING),
                },
            }],
        },
        checks: &[
            Check {
                part: Pool::Generic,
                reading: LineReading::Obligation,
                exact: 20_000_000,
                published: None,
            },
            Check {
                part: Pool::Generic,
                reading: LineReading::Days,
                exact: 21,
                published: None,
            },
            Check {
                part: Pool::Generic,
                reading: LineReading::Average,
                exact: 952_380,
                published: Some(MW_0_95),
            },
        ],
        note: None,
    },
    Example {
        name: "10 MW flexible of category 1 on 3 of 30 days",
        month: JUNE_2018,
        case: PlannedMonth {
            category: 1,
            stretches: &[Stretch {
                first: 1,
                last: 3,
                plan: Plan {
                    category: 1,
                    shown: PerPool {
                        generic: 0,
                        flexible: 10_000,
                    },
                    offer: Offer::EveryHour(NOTHING),
                },
            }],
        },
        checks: &[
            Check {
                part: Pool::Flexible,
                reading: LineReading::Obligation,
                exact: 30_000_000,
                published: None,
            },
            Check {
                part: Pool::Flexible,
                reading: LineReading::Days,
                exact: 30,
                published: None,
            },
            Check {
                part: Pool::Flexible,
                reading: LineReading::Average,
                exact: 1_000_000,
                published: Some(MW_1),
            },
        ],
        note: None,
    },
    Example {
        name: "An outage of five days: 100 MW generic, bid on the other days",
        month: JUNE_2018,
        case: PlannedMonth {
            category: 0,
            stretches: &[
                Stretch {
                    first: 1,
                    last: 3,
                    plan: Plan {
                        category: 0,
                        shown: PerPool {
                            generic: 100_000,
                            flexible: 0,
                        },
                        offer: Offer::EveryHour(Bid {
                            economic: 100_000,
                            self_scheduled: 0,
                        }),
                    },
                },
                Stretch {
                    first: 4,
                    last: 8,
                    plan: Plan {
                        category: 0,
                        shown: PerPool {
                            generic: 100_000,
                            flexible: 0,
                        },
                        offer: Offer::EveryHour(NOTHING),
                    },
                },
                Stretch {
                    first: 9,
                    last: 30,
                    plan: Plan {
                        category: 0,
                        shown: PerPool {
                            generic: 100_000,
                            flexible: 0,
                        },
                        offer: Offer::EveryHour(Bid {
                            economic: 100_000,
                            self_scheduled: 0,
                        }),
                    },
                },
            ],
        },
        checks: &[
            Check {
                part: Pool::Generic,
                reading: LineReading::Obligation,
                exact: 2_100_000_000,
                published: None,
            },
            Check {
                part: Pool::Generic,
                reading: LineReading::Availability,
                exact: 1_600_000_000,
                published: None,
            },
            Check {
                part: Pool::Generic,
                reading: LineReading::Days,
                exact: 21,
                published: None,
            },
            Check {
                part: Pool::Generic,
                reading: LineReading::Quantity,
                exact: 18_309_523,
                published: None,
            },
        ],
        note: None,
    },
    Example {
        name: "The same outage beside 1 MW flexible of category 1 on all 30 days",
        month: JUNE_2018,
        case: PlannedMonth {
            category: 1,
            stretches: &[
                Stretch {
                    first: 1,
                    last: 3,
                    plan: Plan {
                        category: 1,
                        shown: PerPool {
                            generic: 100_000,
                            flexible: 1_000,
                        },
                        offer: Offer::EveryHour(Bid {
                            economic: 100_000,
                            self_scheduled: 0,
                        }),
                    },
                },
                Stretch {
                    first: 4,
                    last: 8,
                    plan: Plan {
                        category: 1,
                        shown: PerPool {
                            generic: 100_000,
                            flexible: 1_000,
                        },
                        offer: Offer::EveryHour(NOTHING),
                    },
                },
                Stretch {
                    first: 9,
                    last: 30,
                    plan: Plan {
                        category: 1,
                        shown: PerPool {
                            generic: 100_000,
                            flexible: 1_000,
                        },
                        offer: Offer::EveryHour(Bid {
                            economic: 100_000,
                            self_scheduled: 0,
                        }),
                    },
                },
            ],
        },
        checks: &[
            Check {
                part: Pool::Generic,
                reading: LineReading::Obligation,
                exact: 2_079_000_000,
                published: None,
            },
            Check {
                part: Pool::Generic,
                reading: LineReading::Availability,
                exact: 1_584_000_000,
                published: None,
            },
            Check {
                part: Pool::Generic,
                reading: LineReading::Days,
                exact: 21,
                published: None,
            },
            Check {
                part: Pool::Generic,
                reading: LineReading::Quantity,
                exact: 18_126_428,
                published: None,
            },
            Check {
                part: Pool::Flexible,
                reading: LineReading::Obligation,
                exact: 30_000_000,
                published: None,
            },
            Check {
                part: Pool::Flexible,
                reading: LineReading::Availability,
                exact: 25_000_000,
                published: None,
            },
            Check {
                part: Pool::Flexible,
                reading: LineReading::Days,
                exact: 30,
                published: None,
            },
            Check {
                part: Pool::Flexible,
                reading: LineReading::Quantity,
                exact: 111_666,
                published: None,
            },
        ],
        note: None,
    },
    Example {
        name: "A month of mixed bids: 100 MW generic, flexible capacity from day 11 on",
        month: APRIL_2018,
        case: PlannedMonth {
            category: 0,
            stretches: &[
                Stretch {
                    first: 1,
                    last: 4,
                    plan: Plan {
                        category: 0,
                        shown: PerPool {
                            generic: 100_000,
                            flexible: 0,
                        },
                        offer: Offer::EveryHour(Bid {
                            economic: 0,
                            self_scheduled: 100_000,
                        }),
                    },
                },
                Stretch {
                    first: 5,
                    last: 5,
                    plan: Plan {
                        category: 0,
                        shown: PerPool {
                            generic: 100_000,
                            flexible: 0,
                        },
                        offer: Offer::Until(
                            14,
                            Bid {
                                economic: 0,
                                self_scheduled: 100_000,
                            },
                            Bid {
                                economic: 0,
                                self_scheduled: 50_000,
                            },
                        ),
                    },
                },
                Stretch {
                    first: 6,
                    last: 10,
                    plan: Plan {
                        category: 0,
                        shown: PerPool {
                            generic: 100_000,
                            flexible: 0,
                        },
                        offer: Offer::EveryHour(NOTHING),
                    },
                },
                Stretch {
                    first: 11,
                    last: 15,
                    plan: Plan {
                        category: 1,
                        shown: PerPool {
                            generic: 100_000,
                            flexible: 75_000,
                        },
                        offer: Offer::EveryHour(Bid {
                            economic: 75_000,
                            self_scheduled: 25_000,
                        }),
                    },
                },
                Stretch {
                    first: 16,
                    last: 16,
                    plan: Plan {
                        category: 1,
                        shown: PerPool {
                            generic: 100_000,
                            flexible: 75_000,
                        },
                        offer: Offer::Until(
                            14,
                            Bid {
                                economic: 75_000,
                                self_scheduled: 25_000,
                            },
                            Bid {
                                economic: 65_000,
                                self_scheduled: 10_000,
                            },
                        ),
                    },
                },
                Stretch {
                    first: 17,
                    last: 20,
                    plan: Plan {
                        category: 1,
                        shown: PerPool {
                            generic: 100_000,
                            flexible: 75_000,
                        },
                        offer: Offer::EveryHour(NOTHING),
                    },
                },
                Stretch {
                    first: 21,
                    last: 30,
                    plan: Plan {
                        category: 3,
                        shown: PerPool {
                            generic: 100_000,
                            flexible: 25_000,
                        },
                        offer: Offer::EveryHour(Bid {
                            economic: 25_000,
                            self_scheduled: 65_000,
                        }),
                    },
                },
            ],
        },
        checks: &[
            Check {
                part: Pool::Generic,
                reading: LineReading::Obligation,
                exact: 1_363_636_362,
                published: None,
            },
            Check {
                part: Pool::Generic,
                reading: LineReading::Availability,
                exact: 857_090_908,
                published: None,
            },
            Check {
                part: Pool::Generic,
                reading: LineReading::Days,
                exact: 21,
                published: None,
            },
            Check {
                part: Pool::Generic,
                reading: LineReading::Quantity,
                exact: 20_549_783,
                published: Some(MW_20_55),
            },
        ],
        note: Some(
            "The flexible line is not compared: here the category changes in mid-month, and a line has one category.",
        ),
    },
];
