//! The published figures, each with the unit of its last printed digit.
use crate::comparison::Published;

/// In W, as are the next two, for figures printed in MW.
const MEGAWATT: u64 = 1_000_000;

const HUNDREDTH_MEGAWATT: u64 = 10_000;

const THOUSANDTH_MEGAWATT: u64 = 1_000;

/// In millionths of the whole, as is the next, for figures printed in per cent.
const PER_CENT: u64 = 10_000;

const HUNDREDTH_PER_CENT: u64 = 100;

/// 0 MW, known to the megawatt.
pub const MW_0: Published = Published {
    printed: "0 MW",
    value: 0,
    unit: MEGAWATT,
};

/// 0.833 MW, known to the thousandth of a megawatt.
pub const MW_0_833: Published = Published {
    printed: "0.833 MW",
    value: 833_000,
    unit: THOUSANDTH_MEGAWATT,
};

/// 0.95 MW, known to the hundredth of a megawatt.
pub const MW_0_95: Published = Published {
    printed: "0.95 MW",
    value: 950_000,
    unit: HUNDREDTH_MEGAWATT,
};

/// 1 MW, known to the megawatt.
pub const MW_1: Published = Published {
    printed: "1 MW",
    value: 1_000_000,
    unit: MEGAWATT,
};

/// 1.167 MW, known to the thousandth of a megawatt.
pub const MW_1_167: Published = Published {
    printed: "1.167 MW",
    value: 1_167_000,
    unit: THOUSANDTH_MEGAWATT,
};

/// 5 MW, known to the megawatt.
pub const MW_5: Published = Published {
    printed: "5 MW",
    value: 5_000_000,
    unit: MEGAWATT,
};

/// 20 MW, known to the megawatt.
pub const MW_20: Published = Published {
    printed: "20 MW",
    value: 20_000_000,
    unit: MEGAWATT,
};

/// 20.55 MW, known to the hundredth of a megawatt.
pub const MW_20_55: Published = Published {
    printed: "20.55 MW",
    value: 20_550_000,
    unit: HUNDREDTH_MEGAWATT,
};

/// 40 MW, known to the megawatt.
pub const MW_40: Published = Published {
    printed: "40 MW",
    value: 40_000_000,
    unit: MEGAWATT,
};

/// 50 MW, known to the megawatt.
pub const MW_50: Published = Published {
    printed: "50 MW",
    value: 50_000_000,
    unit: MEGAWATT,
};

/// 100 MW, known to the megawatt.
pub const MW_100: Published = Published {
    printed: "100 MW",
    value: 100_000_000,
    unit: MEGAWATT,
};

/// 0 %, known to the per cent.
pub const PER_CENT_0: Published = Published {
    printed: "0 %",
    value: 0,
    unit: PER_CENT,
};

/// 50 %, known to the per cent.
pub const PER_CENT_50: Published = Published {
    printed: "50 %",
    value: 500_000,
    unit: PER_CENT,
};

/// 71.43 %, known to the hundredth of a per cent.
pub const PER_CENT_71_43: Published = Published {
    printed: "71.43 %",
    value: 714_300,
    unit: HUNDREDTH_PER_CENT,
};

/// 80 %, known to the per cent.
pub const PER_CENT_80: Published = Published {
    printed: "80 %",
    value: 800_000,
    unit: PER_CENT,
};

/// 100 %, known to the per cent.
pub const PER_CENT_100: Published = Published {
    printed: "100 %",
    value: 1_000_000,
    unit: PER_CENT,
};
