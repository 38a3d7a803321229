// The calls of a statement, and what they are answered with.
use crate::faults::Fault;
use crate::figures::DayLine;
use settlement::{HourLine, Interval, IntervalFigures, Schedule};

// A change to what stands for an hour, with its figures as they were sent.
#[derive(Clone, Copy, PartialEq, Eq, Debug)]
pub enum Change {
    // A schedule row, in the place of a former one.
    Scheduled {
        hour: u8,
        row: Schedule,
    },
    // A record for a slot, in the place of what stood there.
    Posted {
        hour: u8,
        slot: u8,
        interval: Interval,
    },
    // No record for a slot.
    Withdrawn {
        hour: u8,
        slot: u8,
    },
    // A reading, in the place of a former one.
    Read {
        hour: u8,
        kwh: i32,
    },
    // No reading.
    Unread {
        hour: u8,
    },
}

// A change, or a question: the line of an hour, the figures of the interval in a slot, the line of the day.
#[derive(Clone, Copy, PartialEq, Eq, Debug)]
pub enum Call {
    Make(Change),
    AskHour { hour: u8 },
    AskInterval { hour: u8, slot: u8 },
    AskDay,
}

// What an accepted call is answered with.
#[derive(Clone, Copy, PartialEq, Eq, Debug)]
pub enum Answer {
    Done,
    Line(HourLine),
    Figures(IntervalFigures),
    Day(DayLine),
}

// A call of a log, with its answer once it has run. Until then the answer is whatever was put there: an option would have
// to be opened by everyone who reads a log that has run.
#[derive(Clone, Copy, PartialEq, Eq, Debug)]
pub struct Entry {
    pub call: Call,
    pub answer: Result<Answer, Fault>,
}
