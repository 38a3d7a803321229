// Two hours of a station.
use crate::figures::{FIVE_MINUTES, SOLD};
use settlement::{Interval, Limits, Prices, Schedule, SpinPrices, Standing};

// Twelve of the operator's five minutes, and what was sold for them.
pub const OPERATORS_HOUR: Standing = Standing {
    schedule: Some(SOLD),
    reading: None,
    records: [
        Some(FIVE_MINUTES),
        Some(FIVE_MINUTES),
        Some(FIVE_MINUTES),
        Some(FIVE_MINUTES),
        Some(FIVE_MINUTES),
        Some(FIVE_MINUTES),
        Some(FIVE_MINUTES),
        Some(FIVE_MINUTES),
        Some(FIVE_MINUTES),
        Some(FIVE_MINUTES),
        Some(FIVE_MINUTES),
        Some(FIVE_MINUTES),
        None,
        None,
        None,
        None,
        None,
        None,
        None,
        None,
        None,
        None,
        None,
        None,
    ],
};

const LIMITS: Limits = Limits {
    rtd: -40,
    agc: 30_000,
    energy: 18_000,
};

const RESERVE: SpinPrices = SpinPrices {
    east: 500,
    west: 625,
};

// Free.
const FREE: Interval = Interval {
    seconds: 900,
    flags: 2,
    average: 40_000,
    limits: LIMITS,
    transactions: 4_000,
    spin: 2_500,
    prices: Prices {
        energy: 2_817,
        loss: 143,
        congestion: -61,
    },
    reserve: RESERVE,
};

// Under operator intervention, below zero.
const INTERVENED: Interval = Interval {
    seconds: 900,
    flags: 32,
    average: 12_000,
    limits: LIMITS,
    transactions: 4_000,
    spin: 2_500,
    prices: Prices {
        energy: -1_250,
        loss: -38,
        congestion: 215,
    },
    reserve: RESERVE,
};

// Regulating.
const REGULATED: Interval = Interval {
    seconds: 900,
    flags: 64,
    average: 33_333,
    limits: LIMITS,
    transactions: 4_000,
    spin: 2_500,
    prices: Prices {
        energy: 5_019,
        loss: 301,
        congestion: -777,
    },
    reserve: RESERVE,
};

// Held to its energy limit.
const LIMITED: Interval = Interval {
    seconds: 600,
    flags: 0,
    average: 20_001,
    limits: LIMITS,
    transactions: 4_000,
    spin: 2_500,
    prices: Prices {
        energy: -333,
        loss: 17,
        congestion: 0,
    },
    reserve: RESERVE,
};

// A wind unit whose output is limited, held to its energy limit.
const WIND: Interval = Interval {
    seconds: 300,
    flags: 24,
    average: 7_500,
    limits: LIMITS,
    transactions: 4_000,
    spin: 2_500,
    prices: Prices {
        energy: -9_999,
        loss: -412,
        congestion: 1_024,
    },
    reserve: RESERVE,
};

// An interval of each scenario, a reading, and what was sold.
pub const SHARED_HOUR: Standing = Standing {
    schedule: Some(Schedule {
        generation: 21_000,
        transactions: 3_500,
        spin: 3_000,
        prices: Prices {
            energy: 3_129,
            loss: 210,
            congestion: -1,
        },
    }),
    reading: Some(25_000),
    records: [
        Some(FREE),
        Some(INTERVENED),
        Some(REGULATED),
        Some(LIMITED),
        None,
        Some(WIND),
        None,
        None,
        None,
        None,
        None,
        None,
        None,
        None,
        None,
        None,
        None,
        None,
        None,
        None,
        None,
        None,
        None,
        None,
    ],
};
