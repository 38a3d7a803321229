use crate::figures::{PLACE, lasting, open};
use book::Fault;
use record_store::{Pool, Store};
use samples::{FIVE_MINUTES, SOLD};
use settlement::{Edition, State};
use statement::Statement;
use std::test::Fail;

// Slots 0 to 10 of hour 3, five minutes each.
fn eleven<E: Edition, S: Store>(statement: &mut Statement<E>, store: &mut S) -> Result<(), Fault> {
    for slot in 0..11u8 {
        statement.post(store, 3, slot, &FIVE_MINUTES)?;
    }
    Ok(())
}

// Whether hour 3 is settled, its balancing total and its total.
fn line<E: Edition>(statement: &Statement<E>) -> Option<(State, i64, i64)> {
    let line = statement.hour_line(3).ok()?;
    Some((line.state, line.balancing.total, line.total))
}

#[test]
fn the_last_five_minutes_settle_the_hour(rt: HostRuntime) -> Result<(), Fail> {
    let mut places = [PLACE; 24];
    let mut pool = Pool::over(&mut places);
    let mut statement = open(24, 0, &pool)?;
    assert!(rt; statement.schedule(&pool, 3, &SOLD).is_ok());
    assert!(rt; eleven(&mut statement, &mut pool).is_ok());
    assert_eq!(rt; line(&statement), Some((State::Unsettled, 0, 169_000)));
    assert!(rt;
        statement.post(&mut pool, 3, 11, &lasting(301)).is_err(),
        "3,601 seconds"
    );
    assert_eq!(rt; line(&statement), Some((State::Unsettled, 0, 169_000)));
    assert!(rt; statement.post(&mut pool, 3, 11, &FIVE_MINUTES).is_ok());
    assert_eq!(rt; line(&statement), Some((State::Settled, 53_052, 222_052)));
    assert_eq!(rt; statement.day_line().settled, 1);
    Ok(())
}

#[test]
fn a_correction_shares_the_reading_again(rt: HostRuntime) -> Result<(), Fail> {
    let mut places = [PLACE; 24];
    let mut pool = Pool::over(&mut places);
    let mut statement = open(24, 0, &pool)?;
    assert!(rt; statement.schedule(&pool, 3, &SOLD).is_ok());
    assert!(rt; eleven(&mut statement, &mut pool).is_ok());
    assert!(rt; statement.post(&mut pool, 3, 11, &FIVE_MINUTES).is_ok());
    // 50 MWh read, as much as was sold: each interval has 50 MW, and nothing is balanced.
    assert!(rt; statement.read(&pool, 3, 50_000).is_ok());
    assert_eq!(rt; line(&statement), Some((State::Settled, 0, 169_000)));
    // Without the reading each has its average of 65 MW again.
    assert!(rt; statement.unread(&pool, 3).is_ok());
    assert_eq!(rt; line(&statement), Some((State::Settled, 53_052, 222_052)));
    assert!(rt; statement.withdraw(&mut pool, 3, 0).is_ok());
    assert_eq!(rt; line(&statement), Some((State::Unsettled, 0, 169_000)));
    Ok(())
}
