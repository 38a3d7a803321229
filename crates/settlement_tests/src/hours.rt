use crate::refusals::number;
use settlement::{Hour, Interval, Newer, Prices, Region, Schedule, Standing, State};
use std::test::Fail;

// $20 per MWh, and nothing else.
const AT_20: Prices = Prices {
    energy: 2_000,
    loss: 0,
    congestion: 0,
};

// Half an hour of some average output, settled at it.
fn half_hour(average: i32) -> Interval {
    Interval {
        seconds: 1_800,
        flags: 4,
        average,
        prices: AT_20,
        ..Interval::default()
    }
}

fn lasting(seconds: u16) -> Interval {
    Interval {
        seconds,
        ..half_hour(10)
    }
}

const ROW: Schedule = Schedule {
    generation: 1_000,
    transactions: 0,
    spin: 0,
    prices: AT_20,
};

// An hour of two halves, in slots 3 and 17.
fn two_halves(
    first: Interval,
    second: Interval,
    schedule: Option<Schedule>,
    reading: Option<i32>,
) -> Standing {
    let mut records = [None; 24];
    records[3] = Some(first);
    records[17] = Some(second);
    Standing {
        schedule,
        reading,
        records,
    }
}

#[test]
fn a_reading_is_shared_by_the_averages(rt: HostRuntime) -> Result<(), Fail> {
    let Ok(hour) = Hour::new(two_halves(half_hour(10), half_hour(20), Some(ROW), Some(16))) else {
        return Err(Fail::new("refused"));
    };
    let (Ok(first), Ok(second)) = (
        hour.figures(&Newer, Region::East, 3),
        hour.figures(&Newer, Region::East, 17),
    ) else {
        return Err(Fail::new("no interval"));
    };
    assert_eq!(rt; first.adjusted, 11);
    assert_eq!(rt; second.adjusted, 21);
    assert_eq!(rt; number(hour.figures(&Newer, Region::East, 4)), Some(13));
    assert_eq!(rt; number(hour.figures(&Newer, Region::East, 24)), Some(6));
    Ok(())
}

#[test]
fn without_output_the_reading_falls_to_each_interval(rt: HostRuntime) -> Result<(), Fail> {
    let Ok(hour) = Hour::new(two_halves(half_hour(0), half_hour(0), Some(ROW), Some(700))) else {
        return Err(Fail::new("refused"));
    };
    let Ok(second) = hour.figures(&Newer, Region::East, 17) else {
        return Err(Fail::new("no interval"));
    };
    assert_eq!(rt; second.adjusted, 700);
    // 300 kW short of the schedule at $20 a MWh over the hour
    assert_eq!(rt; hour.line(&Newer, Region::East).balancing.energy, -600);
    Ok(())
}

#[test]
fn an_unsettled_hour_shows_what_was_sold_and_nothing_else(rt: HostRuntime) -> Result<(), Fail> {
    let short = lasting(1_799);
    for standing in [
        two_halves(half_hour(5_000), short, Some(ROW), None),
        two_halves(half_hour(5_000), half_hour(5_000), None, None),
    ] {
        let Ok(hour) = Hour::new(standing) else {
            return Err(Fail::new("refused"));
        };
        let line = hour.line(&Newer, Region::East);
        assert_eq!(rt; line.state, State::Unsettled);
        assert_eq!(rt; line.balance, 0);
        assert_eq!(rt; line.balancing.total, 0);
        assert_eq!(rt; line.total, line.ahead.total);
        assert_eq!(rt; number(hour.figures(&Newer, Region::East, 3)), Some(15));
    }
    Ok(())
}

#[test]
fn an_hour_holds_no_more_than_its_seconds(rt: HostRuntime) {
    let standing = two_halves(half_hour(5_000), lasting(1_801), Some(ROW), None);
    assert_eq!(rt; number(Hour::new(standing)), Some(11));
}

#[test]
fn a_changed_hour_is_an_hour_of_the_changed_figures(rt: HostRuntime) -> Result<(), Fail> {
    let Ok(mut hour) = Hour::new(two_halves(half_hour(10), half_hour(20), Some(ROW), Some(16)))
    else {
        return Err(Fail::new("refused"));
    };
    // 3,300 seconds elsewhere leave room for 300 and not for 301
    assert_eq!(rt; number(hour.post(3, &lasting(1_500))), None);
    assert_eq!(rt; number(hour.post(4, &lasting(301))), Some(11));
    assert_eq!(rt; number(hour.post(4, &lasting(300))), None);
    assert_eq!(rt; hour.line(&Newer, Region::East).state, State::Settled);
    assert_eq!(rt; number(hour.post(24, &half_hour(10))), Some(6));
    assert_eq!(rt; number(hour.withdraw(5)), Some(13));
    assert_eq!(rt; number(hour.withdraw(17)), None);
    assert_eq!(rt; hour.line(&Newer, Region::East).seconds, 1_800);
    assert_eq!(rt; number(hour.unread()), None);
    assert_eq!(rt; number(hour.unread()), Some(13));
    assert_eq!(rt; number(hour.read(-1)), Some(14));
    assert_eq!(rt;
        number(hour.schedule(&Schedule { spin: -1, ..ROW })),
        Some(9)
    );
    Ok(())
}
