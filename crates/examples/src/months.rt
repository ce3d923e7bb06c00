//! The trade months of the examples, each without holiday marks.
use assessment::TradeMonth;

/// June 2018 with the generic window of hours 14 to 18 and both flexible windows of hours 16 to 20.
pub const JUNE_2018: TradeMonth = TradeMonth {
    year: 2018,
    month: 6,
    holidays: 0,
    generic_start: 14,
    category2_start: 16,
    category3_start: 16,
};

/// June 2018 with the generic window of hours 1 to 5 and the category 2 window of hours 3 to 7.
pub const JUNE_2018_EARLY: TradeMonth = TradeMonth {
    generic_start: 1,
    category2_start: 3,
    ..JUNE_2018
};

/// April 2018 with the windows of `JUNE_2018`.
pub const APRIL_2018: TradeMonth = TradeMonth {
    month: 4,
    ..JUNE_2018
};
