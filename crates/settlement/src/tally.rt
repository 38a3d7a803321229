// Counting what stands in an hour.
ghost use Rattle.std.specs.Prelude.{◌≡◌, ◌≤◌, length, None};
ghost use Rattle.std.specs.List.{flat_map};
ghost use Rattle.std.specs.Option.{option_to_list};
ghost use Rattle.settlement.specs.Rulings.{ruled};
ghost use Rattle.settlement.specs.Limits.{interval_refusal, each_refusal, hour_refusal};
ghost use Rattle.settlement.specs.Bounds.{TallyWithin};
ghost use Rattle.settlement.specs.Standing.{intervals, tally_of, with_interval};

use crate::figures::{Interval, Standing, Tally};
use crate::limits::{Refusal, check_reading};

impl Tally {
    // One interval more. There is room for those of an hour.
    pub(crate) fn count(&mut self, interval: &Interval)
        requires fair { interval_refusal interval.now ≡ None }
        requires room { TallyWithin 24 self.old }
        ensures { self.new ≡ with_interval self.old interval.now }
    {
        self.intervals += 1;
        self.seconds += interval.seconds as u32;
        self.volume += interval.average as i64 * interval.seconds as i64;
    }

    // One interval fewer, of those that were counted.
    pub(crate) fn discount(&mut self, interval: &Interval)
        requires fair { interval_refusal interval.now ≡ None }
        requires few { 1 ≤ self.old.intervals }
        requires short { interval.now.seconds ≤ self.old.seconds }
        requires room { TallyWithin 24 self.old }
        ensures { self.old ≡ with_interval self.new interval.now }
    {
        self.intervals -= 1;
        self.seconds -= interval.seconds as u32;
        self.volume -= interval.average as i64 * interval.seconds as i64;
    }

    // What stands in an hour's slots, or the first limit that a record breaks.
    fn of(records: &[Option<Interval>; 24]) -> Result<Tally, Refusal>
        ensures value { result ≡ ruled (each_refusal (flat_map option_to_list records.now)) (tally_of (flat_map option_to_list records.now)) }
        ensures slots { length records.now ≡ 24 }
    {
        let mut tally = Tally::default();
        // Not `iter().flatten()`: it proves too, but a day then takes over twice what the plain peer in bench/ takes.
        for record in records {
            if let Some(interval) = record {
                interval.check()?;
                tally.count(interval);
            }
        }
        Ok(tally)
    }
}

impl Standing {
    // What stands in the hour, or the first limit that its figures break.
    pub(crate) fn tally(&self) -> Result<Tally, Refusal>
        ensures value { result ≡ ruled (hour_refusal self.now) (tally_of (intervals self.now)) }
        ensures slots { length self.now.records ≡ 24 }
    {
        let tally = Tally::of(&self.records)?;
        if tally.seconds > 3600 {
            return Err(Refusal::Overfull);
        }
        if let Some(row) = &self.schedule {
            row.check()?;
        }
        if let Some(kwh) = self.reading {
            check_reading(kwh)?;
        }
        Ok(tally)
    }
}
