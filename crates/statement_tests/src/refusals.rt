use crate::figures::{
    DEAR, PLACE, full, lasting, open, post, read, refused, schedule, told, unread, withdraw,
};
use book::{Call, Report};
use record_store::{Journal, Place, Pool, Store};
use samples::{FIVE_MINUTES, SOLD};
use settlement::{Edition, Interval, Schedule};
use statement::Statement;
use std::test::Fail;

// A call, and what is told of its refusal.
#[derive(Clone, Copy)]
struct Case(Call, Option<Report>);

// Makes the calls in their order, and compares what is told of each answer.
fn play<E: Edition, S: Store>(
    statement: &mut Statement<E>,
    store: &mut S,
    cases: &[Case],
) -> Result<(), Fail> {
    for Case(call, expected) in cases {
        if told(&statement.call(store, call)) != *expected {
            return Err(Fail::new("another answer"));
        }
    }
    Ok(())
}

const DONE: Option<Report> = None;

// A row whose power and price are both outside their limits.
const WEAK: Schedule = Schedule {
    generation: -1,
    prices: DEAR,
    ..SOLD
};

#[test]
fn each_refusal_of_a_schedule_row_and_of_a_reading() -> Result<(), Fail> {
    let mut places = [PLACE; 24];
    let mut pool = Pool::over(&mut places);
    let mut statement = open(24, 0, &pool)?;
    play(
        &mut statement,
        &mut pool,
        &[
            Case(schedule(24, WEAK), refused(5, 24, 0)),
            Case(schedule(23, WEAK), refused(9, 23, 0)),
            Case(
                schedule(
                    23,
                    Schedule {
                        prices: DEAR,
                        ..SOLD
                    },
                ),
                refused(10, 23, 0),
            ),
            Case(schedule(23, SOLD), DONE),
            Case(read(24, -1), refused(5, 24, 0)),
            Case(read(23, -1), refused(14, 23, 0)),
            Case(read(23, 2_000_001), refused(14, 23, 0)),
            Case(unread(24), refused(5, 24, 0)),
            Case(unread(23), refused(13, 23, 0)),
            Case(read(23, 2_000_000), DONE),
            Case(unread(23), DONE),
            Case(unread(23), refused(13, 23, 0)),
        ],
    )
}

#[test]
fn each_refusal_of_a_posting_and_of_a_withdrawal() -> Result<(), Fail> {
    let mut places = [PLACE; 24];
    let mut pool = Pool::over(&mut places);
    let mut statement = open(23, 1, &pool)?;
    let dear = Interval {
        prices: DEAR,
        ..FIVE_MINUTES
    };
    let weak = Interval {
        average: -1,
        ..dear
    };
    let flagged = Interval { flags: 16, ..weak };
    let brief = Interval {
        seconds: 5,
        ..flagged
    };
    play(
        &mut statement,
        &mut pool,
        &[
            Case(post(23, 24, brief), refused(5, 23, 24)),
            Case(post(22, 24, brief), refused(6, 22, 24)),
            Case(post(22, 1, brief), refused(7, 22, 1)),
            Case(post(22, 1, flagged), refused(8, 22, 1)),
            Case(post(22, 1, weak), refused(9, 22, 1)),
            Case(post(22, 1, dear), refused(10, 22, 1)),
            Case(post(22, 0, lasting(3_600)), DONE),
            Case(post(22, 1, dear), refused(10, 22, 1)),
            Case(post(22, 1, lasting(6)), refused(11, 22, 1)),
            Case(post(22, 0, lasting(3_599)), DONE),
            Case(withdraw(23, 24), refused(5, 23, 24)),
            Case(withdraw(22, 24), refused(6, 22, 24)),
            Case(withdraw(22, 1), refused(13, 22, 1)),
            Case(withdraw(22, 0), DONE),
            Case(withdraw(22, 0), refused(13, 22, 0)),
        ],
    )
}

#[test]
fn each_refusal_of_a_question() -> Result<(), Fail> {
    let mut places = [PLACE; 24];
    let mut pool = Pool::over(&mut places);
    let mut statement = open(25, 0, &pool)?;
    play(
        &mut statement,
        &mut pool,
        &[
            Case(Call::AskHour { hour: 25 }, refused(5, 25, 0)),
            Case(Call::AskHour { hour: 24 }, DONE),
            Case(Call::AskInterval { hour: 25, slot: 24 }, refused(5, 25, 24)),
            Case(Call::AskInterval { hour: 24, slot: 24 }, refused(6, 24, 24)),
            Case(Call::AskInterval { hour: 24, slot: 9 }, refused(13, 24, 9)),
            Case(post(24, 9, lasting(3_600)), DONE),
            Case(Call::AskInterval { hour: 24, slot: 9 }, refused(15, 24, 9)),
            Case(schedule(24, SOLD), DONE),
            Case(Call::AskInterval { hour: 24, slot: 9 }, DONE),
            Case(Call::AskDay, DONE),
        ],
    )
}

// Posts 24 intervals of 150 seconds to hour 0, which fill the hour and the store.
fn fill<E: Edition, S: Store>(statement: &mut Statement<E>, store: &mut S) -> Result<(), Fail> {
    for slot in 0..24u8 {
        if statement.post(store, 0, slot, &lasting(150)).is_err() {
            return Err(Fail::new("an interval is refused"));
        }
    }
    Ok(())
}

#[test]
fn a_full_store_refuses_last() -> Result<(), Fail> {
    let mut places = [PLACE; 24];
    let mut pool = Pool::over(&mut places);
    let mut statement = open(24, 0, &pool)?;
    fill(&mut statement, &mut pool)?;
    play(
        &mut statement,
        &mut pool,
        &[
            Case(post(1, 7, lasting(5)), refused(7, 1, 7)),
            Case(post(1, 7, FIVE_MINUTES), full(1, 7)),
            Case(post(0, 7, lasting(149)), DONE),
            Case(withdraw(0, 7), DONE),
            Case(post(1, 7, FIVE_MINUTES), DONE),
        ],
    )
}

#[test]
fn a_full_journal_refuses_a_correction_and_a_withdrawal() -> Result<(), Fail> {
    let mut places = [Place::default(); 24];
    let mut journal = Journal::over(&mut places);
    let mut statement = open(24, 0, &journal)?;
    fill(&mut statement, &mut journal)?;
    play(
        &mut statement,
        &mut journal,
        &[
            Case(post(0, 7, lasting(151)), refused(11, 0, 7)),
            Case(post(0, 7, lasting(149)), full(0, 7)),
            Case(withdraw(0, 7), full(0, 7)),
            Case(withdraw(1, 7), refused(13, 1, 7)),
        ],
    )
}

#[test]
fn records_that_break_a_limit_are_refused_after_the_hour(rt: HostRuntime) -> Result<(), Fail> {
    let mut places = [PLACE; 24];
    let mut pool = Pool::over(&mut places);
    let mut statement = open(24, 0, &pool)?;
    for hour in [3, 24] {
        assert!(rt;
            pool.write(hour, 0, &lasting(5)).is_ok(),
            "the store looks at no limit"
        );
    }
    play(
        &mut statement,
        &mut pool,
        &[
            Case(post(24, 24, lasting(5)), refused(5, 24, 24)),
            Case(schedule(24, SOLD), refused(5, 24, 0)),
            Case(withdraw(24, 0), refused(5, 24, 0)),
            Case(read(24, 0), refused(5, 24, 0)),
            Case(unread(24), refused(5, 24, 0)),
            Case(Call::AskInterval { hour: 24, slot: 0 }, refused(5, 24, 0)),
            Case(post(3, 24, lasting(5)), refused(3, 3, 24)),
            Case(schedule(3, SOLD), refused(3, 3, 0)),
            Case(schedule(3, WEAK), refused(3, 3, 0)),
            Case(withdraw(3, 0), refused(3, 3, 0)),
            Case(withdraw(3, 1), refused(3, 3, 1)),
            Case(read(3, -1), refused(3, 3, 0)),
            Case(unread(3), refused(3, 3, 0)),
            Case(Call::AskInterval { hour: 3, slot: 1 }, refused(3, 3, 1)),
            Case(Call::AskHour { hour: 3 }, DONE),
            Case(schedule(4, SOLD), DONE),
        ],
    )
}
