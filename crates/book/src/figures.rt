// The table of a day.
use settlement::{Amounts, HourLine, Region, Schedule};

// What is kept of an hour beside its records, and its line.
#[derive(Clone, Copy, Default, PartialEq, Eq, Debug)]
pub struct Row {
    pub schedule: Option<Schedule>,
    pub reading: Option<i32>,
    pub line: HourLine,
}

// The line of a day: the settled hours are counted, all else is added up.
#[derive(Clone, Copy, Default, PartialEq, Eq, Debug)]
pub struct DayLine {
    pub settled: u8,
    pub intervals: u16,
    pub seconds: u32,
    pub ahead: Amounts,
    // The sum of balance x seconds, in kW seconds.
    pub balance: i64,
    pub balancing: Amounts,
    pub spin: i64,
    pub total: i64,
}

// The rows of a day, as many as the longest day has hours, and the day's line. (Rows in place, since nothing below the
// file takes memory from a heap.)
#[derive(Clone, Copy, PartialEq, Eq, Debug)]
pub struct Table {
    pub hours: u8,
    pub region: Region,
    pub rows: [Row; 25],
    pub day: DayLine,
}
