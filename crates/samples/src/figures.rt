// The operator's own example.
use settlement::{Interval, Limits, Prices, Schedule, SpinPrices};

// Five minutes at 65 MW, out of merit for reliability, at $33.65 and $1.72 per MWh.
pub const FIVE_MINUTES: Interval = Interval {
    seconds: 300,
    flags: 4,
    average: 65_000,
    limits: Limits {
        rtd: 0,
        agc: 0,
        energy: 0,
    },
    transactions: 0,
    spin: 0,
    prices: Prices {
        energy: 3_365,
        loss: 172,
        congestion: 0,
    },
    reserve: SpinPrices { east: 0, west: 0 },
};

// 50 MW sold the day before, at $25.25, $3.06 and -$5.49.
pub const SOLD: Schedule = Schedule {
    generation: 50_000,
    transactions: 0,
    spin: 0,
    prices: Prices {
        energy: 2_525,
        loss: 306,
        congestion: -549,
    },
};
