// What the tables are made of.
use book::{Answer, Call, Change, Fault, Layer, Report};
use record_store::{Place, Store};
use samples::FIVE_MINUTES;
use settlement::{Interval, Newer, Prices, Schedule};
use statement::Statement;
use std::test::Fail;

// What the memory of a pool holds before: a record, of which a store shows nothing.
pub const PLACE: Place<Interval> = Place {
    hour: 0,
    slot: 0,
    content: FIVE_MINUTES,
};

pub const DEAR: Prices = Prices {
    energy: 1_000_001,
    loss: 0,
    congestion: 0,
};

// A day over a store, for a test that can't go on without it.
pub fn open<S: Store>(hours: u8, region: u8, store: &S) -> Result<Statement<Newer>, Fail> {
    Statement::open(Newer, hours, region, store).map_err(|_| Fail::new("not opened"))
}

pub fn schedule(hour: u8, row: Schedule) -> Call {
    Call::Make(Change::Scheduled { hour, row })
}

pub fn post(hour: u8, slot: u8, interval: Interval) -> Call {
    Call::Make(Change::Posted {
        hour,
        slot,
        interval,
    })
}

pub fn withdraw(hour: u8, slot: u8) -> Call {
    Call::Make(Change::Withdrawn { hour, slot })
}

pub fn read(hour: u8, kwh: i32) -> Call {
    Call::Make(Change::Read { hour, kwh })
}

pub fn unread(hour: u8) -> Call {
    Call::Make(Change::Unread { hour })
}

// A record of some length.
pub fn lasting(seconds: u16) -> Interval {
    Interval {
        seconds,
        ..FIVE_MINUTES
    }
}

// What is told of a refusal.
pub fn told(answer: &Result<Answer, Fault>) -> Option<Report> {
    answer.err().map(|fault| fault.report())
}

// A refusal by the statement, with the hour and the slot that are told.
pub const fn refused(number: u8, hour: u8, slot: u8) -> Option<Report> {
    Some(Report {
        layer: Layer::Statement,
        number,
        hour,
        slot,
    })
}

// A refusal by a store that is full.
pub const fn full(hour: u8, slot: u8) -> Option<Report> {
    Some(Report {
        layer: Layer::Store,
        number: 12,
        hour,
        slot,
    })
}
