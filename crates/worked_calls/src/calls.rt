// Lists of calls: an hour from its figures, and a day that is corrected.
use book::{Answer, Call, Change, Entry};
use samples::{FIVE_MINUTES, SOLD};
use settlement::{Interval, Schedule, Standing};
use std::alloc::{AllocError, Global};

// The hour that the program's calls are about.
const HOUR: u8 = 7;

// A list of calls that is written down before it is played.
#[derive(Drop)]
pub struct Log {
    pub entries: Vec<Entry>,
}

impl Log {
    fn new(heap: Global) -> Log {
        Log {
            entries: Vec::new(heap),
        }
    }

    // One call more. Its answer is filled in when the list is played.
    fn call(&mut self, call: Call) -> Result<(), AllocError> {
        let answer = Ok(Answer::Done);
        self.entries.push(Entry { call, answer })?;
        Ok(())
    }

    fn schedule(&mut self, hour: u8, row: Schedule) -> Result<(), AllocError> {
        self.call(Call::Make(Change::Scheduled { hour, row }))
    }

    fn post(&mut self, slot: u8, interval: Interval) -> Result<(), AllocError> {
        self.call(Call::Make(Change::Posted {
            hour: HOUR,
            slot,
            interval,
        }))
    }

    fn withdraw(&mut self, slot: u8) -> Result<(), AllocError> {
        self.call(Call::Make(Change::Withdrawn { hour: HOUR, slot }))
    }

    fn read(&mut self, kwh: i32) -> Result<(), AllocError> {
        self.call(Call::Make(Change::Read { hour: HOUR, kwh }))
    }

    fn ask(&mut self) -> Result<(), AllocError> {
        self.call(Call::AskHour { hour: HOUR })
    }

    fn ask_interval(&mut self, slot: u8) -> Result<(), AllocError> {
        self.call(Call::AskInterval { hour: HOUR, slot })
    }
}

// What stands for an hour, call by call, and questions for its intervals and its line.
pub fn hour_log(heap: Global, standing: &Standing) -> Result<Log, AllocError> {
    let mut log = Log::new(heap);
    if let Some(row) = standing.schedule {
        log.schedule(HOUR, row)?;
    }
    if let Some(kwh) = standing.reading {
        log.read(kwh)?;
    }
    for (slot, record) in standing.records.iter().enumerate() {
        if let Some(interval) = record {
            log.post(slot as u8, *interval)?;
        }
    }
    for slot in 0..24u8 {
        log.ask_interval(slot)?;
    }
    log.ask()?;
    Ok(log)
}

// A quarter of an hour with some average output.
fn quarter(average: i32) -> Interval {
    Interval {
        seconds: 900,
        average,
        ..FIVE_MINUTES
    }
}

// An hour whose reading and records are corrected while it is settled and again unsettled.
pub fn corrected_log(heap: Global) -> Result<Log, AllocError> {
    let mut log = Log::new(heap);
    log.schedule(HOUR, SOLD)?;
    for (slot, average) in [(0, 52_000), (1, 60_000), (2, 48_000), (3, 40_000)] {
        log.post(slot, quarter(average))?;
    }
    log.ask()?;
    log.read(51_000)?;
    log.ask()?;
    log.read(50_500)?;
    log.ask()?;
    log.post(2, quarter(50_000))?;
    log.post(2, quarter(50_000))?;
    log.ask_interval(2)?;
    log.post(4, FIVE_MINUTES)?;
    log.withdraw(3)?;
    log.withdraw(3)?;
    log.ask_interval(3)?;
    log.ask_interval(0)?;
    log.ask()?;
    log.post(3, quarter(40_000))?;
    log.schedule(24, SOLD)?;
    log.call(Call::AskDay)?;
    Ok(log)
}
