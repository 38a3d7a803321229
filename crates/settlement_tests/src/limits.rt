use crate::refusals::number;
use settlement::{Interval, Limits, Prices, Schedule, SpinPrices, check_reading};

const PRICES: Prices = Prices {
    energy: 1_000_000,
    loss: -1_000_000,
    congestion: 0,
};

const LIMITS: Limits = Limits {
    rtd: -2_000_000,
    agc: 2_000_000,
    energy: 0,
};

// Each figure at one of its limits.
const EDGE: Interval = Interval {
    seconds: 6,
    flags: 127,
    average: 2_000_000,
    limits: LIMITS,
    transactions: 0,
    spin: 2_000_000,
    prices: PRICES,
    reserve: SpinPrices {
        east: -1_000_000,
        west: 1_000_000,
    },
};

const ROW: Schedule = Schedule {
    generation: 2_000_000,
    transactions: 0,
    spin: 0,
    prices: PRICES,
};

#[test]
fn a_record_names_the_first_limit_that_it_breaks(rt: HostRuntime) {
    let cases: [(Interval, Option<u8>); 16] = [
        (EDGE, None),
        (Interval { seconds: 5, ..EDGE }, Some(7)),
        (
            Interval {
                seconds: 3_600,
                ..EDGE
            },
            None,
        ),
        (
            Interval {
                seconds: 3_601,
                flags: 128,
                ..EDGE
            },
            Some(7),
        ),
        (
            Interval {
                flags: 128,
                average: -1,
                ..EDGE
            },
            Some(8),
        ),
        (Interval { flags: 16, ..EDGE }, Some(8)),
        (Interval { flags: 24, ..EDGE }, None),
        (
            Interval {
                average: -1,
                prices: Prices {
                    energy: 1_000_001,
                    ..PRICES
                },
                ..EDGE
            },
            Some(9),
        ),
        (
            Interval {
                average: 2_000_001,
                ..EDGE
            },
            Some(9),
        ),
        (
            Interval {
                limits: Limits {
                    rtd: -2_000_001,
                    ..LIMITS
                },
                ..EDGE
            },
            Some(9),
        ),
        (
            Interval {
                limits: Limits {
                    agc: 2_000_001,
                    ..LIMITS
                },
                ..EDGE
            },
            Some(9),
        ),
        (
            Interval {
                transactions: -1,
                ..EDGE
            },
            Some(9),
        ),
        (
            Interval {
                spin: 2_000_001,
                ..EDGE
            },
            Some(9),
        ),
        (
            Interval {
                prices: Prices {
                    loss: -1_000_001,
                    ..PRICES
                },
                ..EDGE
            },
            Some(10),
        ),
        (
            Interval {
                prices: Prices {
                    congestion: 1_000_001,
                    ..PRICES
                },
                ..EDGE
            },
            Some(10),
        ),
        (
            Interval {
                reserve: SpinPrices {
                    east: 0,
                    west: 1_000_001,
                },
                ..EDGE
            },
            Some(10),
        ),
    ];
    for (record, refusal) in cases {
        assert_eq!(rt; number(record.check()), refusal);
    }
}

#[test]
fn a_row_names_power_before_price(rt: HostRuntime) {
    let dear = Prices {
        congestion: -1_000_001,
        ..PRICES
    };
    assert_eq!(rt; number(ROW.check()), None);
    assert_eq!(rt;
        number(Schedule {
            generation: 2_000_001,
            prices: dear,
            ..ROW
        }
        .check()),
        Some(9)
    );
    assert_eq!(rt;
        number(Schedule {
            transactions: -1,
            ..ROW
        }
        .check()),
        Some(9)
    );
    assert_eq!(rt; number(Schedule { spin: -1, ..ROW }.check()), Some(9));
    assert_eq!(rt;
        number(Schedule {
            prices: dear,
            ..ROW
        }
        .check()),
        Some(10)
    );
}

#[test]
fn a_reading_lies_between_zero_and_two_million(rt: HostRuntime) {
    assert_eq!(rt; number(check_reading(0)), None);
    assert_eq!(rt; number(check_reading(2_000_000)), None);
    assert_eq!(rt; number(check_reading(-1)), Some(14));
    assert_eq!(rt; number(check_reading(2_000_001)), Some(14));
}
