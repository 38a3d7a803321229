use book::Fault;
use day_file::FileFault;
use listing::{list, listing_length};
use record_store::{Place, Pool, Store};
use samples::{FIVE_MINUTES, SOLD};
use settlement::{Interval, Newer};
use statement::{Locked, Statement};
use std::test::Fail;

// Memory that held something before.
const PLACE: Place<Interval> = Place {
    hour: 0,
    slot: 0,
    content: FIVE_MINUTES,
};

const EMPTY_DAY: &[u8] =
    b"HOUR,STATE,DAY_AHEAD,ENERGY,LOSS,CONGESTION,SPIN,TOTAL\nDAY,0,0,0,0,0,0,0\n";

const TWO_HOURS: &[u8] =
    b"HOUR,STATE,DAY_AHEAD,ENERGY,LOSS,CONGESTION,SPIN,TOTAL\n3,S,169000,50472,2580,0,0,222052\n10,U,169000,0,0,0,0,169000\nDAY,1,338000,50472,2580,0,0,391052\n";

// A day on which two hours were sold, of which one is settled.
fn settled_day<S: Store>(store: &mut S) -> Result<Locked, Fault> {
    let mut statement = Statement::open(Newer, 24, 0, store)?;
    statement.schedule(store, 3, &SOLD)?;
    statement.schedule(store, 10, &SOLD)?;
    for slot in 0..12u8 {
        statement.post(store, 3, slot, &FIVE_MINUTES)?;
    }
    Ok(statement.lock())
}

// Lists into memory full of nines, and compares all that is there after.
fn prints(locked: &Locked, out: &mut [u8], expected: &[u8]) -> Result<(), Fail> {
    let Ok(length) = list(locked, out) else {
        return Err(Fail::new("no room"));
    };
    if &out[..length] != expected {
        return Err(Fail::new("another listing"));
    }
    if out[length..].iter().any(|byte| *byte != 9) {
        return Err(Fail::new("written past the listing"));
    }
    Ok(())
}

#[test]
fn an_empty_day_has_a_heading_and_a_day_row(rt: HostRuntime) -> Result<(), Fail> {
    let mut places = [PLACE; 24];
    let pool = Pool::over(&mut places);
    let Ok(statement) = Statement::open(Newer, 24, 0, &pool) else {
        return Err(Fail::new("not opened"));
    };
    let locked = statement.lock();
    assert_eq!(rt; listing_length(&locked), 73);
    prints(&locked, &mut [9; 73], EMPTY_DAY)?;
    prints(&locked, &mut [9; 75], EMPTY_DAY)
}

#[test]
fn memory_that_is_too_short_is_left_as_it_was(rt: HostRuntime) -> Result<(), Fail> {
    let mut places = [PLACE; 24];
    let pool = Pool::over(&mut places);
    let Ok(statement) = Statement::open(Newer, 24, 0, &pool) else {
        return Err(Fail::new("not opened"));
    };
    let mut out = [9; 72];
    assert!(rt; matches!(list(&statement.lock(), &mut out), Err(FileFault::Room(73))));
    assert!(rt; out == [9; 72]);
    Ok(())
}

#[test]
fn an_hour_that_was_sold_has_a_row() -> Result<(), Fail> {
    let mut places = [PLACE; 24];
    let mut pool = Pool::over(&mut places);
    let Ok(locked) = settled_day(&mut pool) else {
        return Err(Fail::new("refused"));
    };
    prints(&locked, &mut [9; 200], TWO_HOURS)
}
