// Changing what stands in an hour. A refused change leaves the hour as it was.
ghost use Rattle.std.specs.Prelude.{◌≡◌, ◌<◌, Some, None};
ghost use Rattle.settlement.specs.Rulings.{ruled, changed};
ghost use Rattle.settlement.specs.Limits.{schedule_refusal, reading_refusal};
ghost use Rattle.settlement.specs.Standing.{intervals, tally_of};
ghost use Rattle.settlement.specs.Changes.{with_record, with_row, with_reading, post_refusal, withdraw_refusal, unread_refusal};

use crate::figures::{Interval, Schedule, Tally};
use crate::hour::Hour;
use crate::limits::{Refusal, check_reading};

impl Hour {
    // Another schedule row.
    pub fn schedule(&mut self, row: &Schedule) -> Result<(), Refusal>
        ensures answer { result ≡ ruled (schedule_refusal row.now) tt }
        ensures after { self.new.standing ≡ changed (schedule_refusal row.now) (with_row self.old.standing row.now) self.old.standing }
    {
        row.check()?;
        self.standing.schedule = Some(*row);
        Ok(())
    }

    // Another reading.
    pub fn read(&mut self, kwh: i32) -> Result<(), Refusal>
        ensures answer { result ≡ ruled (reading_refusal kwh) tt }
        ensures after { self.new.standing ≡ changed (reading_refusal kwh) (with_reading self.old.standing (Some kwh)) self.old.standing }
    {
        check_reading(kwh)?;
        self.standing.reading = Some(kwh);
        Ok(())
    }

    // No reading.
    pub fn unread(&mut self) -> Result<(), Refusal>
        ensures answer { result ≡ ruled (unread_refusal self.old.standing) tt }
        ensures after { self.new.standing ≡ changed (unread_refusal self.old.standing) (with_reading self.old.standing None) self.old.standing }
    {
        if self.standing.reading.is_none() {
            return Err(Refusal::Nothing);
        }
        self.standing.reading = None;
        Ok(())
    }

    // What stands in the hour's other slots.
    fn without(&self, slot: u8) -> Tally
        requires { slot < 24 }
        ensures { result ≡ tally_of (intervals (with_record self.now.standing slot None)) }
    {
        let mut counted = self.counted;
        if let Some(interval) = &self.standing.records[slot as usize] {
            counted.discount(interval);
        }
        counted
    }

    // A record in a slot, in the place of what stood there.
    pub fn post(&mut self, slot: u8, interval: &Interval) -> Result<(), Refusal>
        ensures answer { result ≡ ruled (post_refusal self.old.standing slot interval.now) tt }
        ensures after { self.new.standing ≡ changed (post_refusal self.old.standing slot interval.now) (with_record self.old.standing slot (Some interval.now)) self.old.standing }
    {
        if slot >= 24 {
            return Err(Refusal::Slot);
        }
        interval.check()?;
        let mut counted = self.without(slot);
        counted.count(interval);
        if counted.seconds > 3600 {
            return Err(Refusal::Overfull);
        }
        self.standing.records[slot as usize] = Some(*interval);
        self.counted = counted;
        Ok(())
    }

    // Nothing in a slot.
    pub fn withdraw(&mut self, slot: u8) -> Result<(), Refusal>
        ensures answer { result ≡ ruled (withdraw_refusal self.old.standing slot) tt }
        ensures after { self.new.standing ≡ changed (withdraw_refusal self.old.standing slot) (with_record self.old.standing slot None) self.old.standing }
    {
        if slot >= 24 {
            return Err(Refusal::Slot);
        }
        if self.record(slot).is_none() {
            return Err(Refusal::Nothing);
        }
        let counted = self.without(slot);
        self.standing.records[slot as usize] = None;
        self.counted = counted;
        Ok(())
    }
}
