// The line of an hour, and the figures of the interval in a slot.
ghost use Rattle.std.specs.Prelude.{◌≡◌, true, None, slice_index_or};
ghost use Rattle.settlement.specs.Bounds.{SumsWithin, is_small_line, is_short_line};
ghost use Rattle.settlement.specs.Nearness.{NearWhereSettled, SharesReading, SignFree};
ghost use Rattle.settlement.specs.Formulas.{settled_by, settled_sums, ahead as ahead_ℤ, line_of, hour_line, figures_at};

use crate::editions::{Edition, Sign};
use crate::figures::{Amounts, HourLine, Interval, IntervalFigures, Region, Schedule, State, Sums};
use crate::hour::Hour;
use crate::hour::settling::Settling;
use crate::limits::Refusal;

impl Hour {
    // The row by which the hour is settled, if it is: its schedule row, where its intervals fill the hour.
    fn settled_by(&self) -> Option<Schedule>
        ensures { result ≡ settled_by self.now.standing }
    {
        if self.counted.seconds == 3600 {
            self.standing.schedule
        } else {
            None
        }
    }

    // What the hour's intervals come to: nothing where it is not settled.
    fn settled_sums<E: Edition>(&self, edition: &E, region: Region) -> Sums
        ensures value { result ≡ settled_sums (E.Edition.terms edition.now) region self.now.standing (settled_by self.now.standing) }
        ensures within { SumsWithin 24 result }
    {
        match self.settled_by() {
            Some(row) => self.sums(edition, region, &row),
            None => Sums::default(),
        }
    }

    // What was sold the day before: nothing without a row.
    fn ahead(&self) -> Amounts
        ensures { result ≡ ahead_ℤ self.now.standing.schedule }
    {
        match &self.standing.schedule {
            Some(row) => row.day_ahead(),
            None => Amounts::default(),
        }
    }

    // The line, from what the intervals come to.
    fn close(&self, sign: Sign, sums: &Sums) -> HourLine
        requires within { SumsWithin 24 sums.now }
        ensures value { result ≡ line_of sign self.now.standing sums.now }
        ensures small { is_small_line result ≡ true }
        ensures short { is_short_line result ≡ true }
    {
        let state = match self.settled_by() {
            Some(_) => State::Settled,
            None => State::Unsettled,
        };
        let ahead = self.ahead();
        let balancing = Amounts::new(sign, sums.energy, sums.loss, sums.congestion);
        HourLine {
            state,
            intervals: self.counted.intervals,
            seconds: self.counted.seconds as u16,
            ahead,
            balance: sums.balance,
            balancing,
            spin: sums.spin,
            total: ahead.total + balancing.total + sums.spin,
        }
    }

    // The hour's line under an edition. (Edition and region are two values: a pair of them would be taken apart at
    // once.)
    pub fn line<E: Edition>(&self, edition: &E, region: Region) -> HourLine
        ensures value { result ≡ hour_line (E.Edition.terms edition.now) region self.now.standing }
        ensures near { NearWhereSettled (E.Edition.terms edition.now) self.now.standing result }
        ensures shared { SharesReading self.now.standing }
        ensures sign_free { SignFree (E.Edition.terms edition.now) region self.now.standing result }
        ensures small { is_small_line result ≡ true }
        ensures short { is_short_line result ≡ true }
    {
        self.close(edition.sign(), &self.settled_sums(edition, region))
    }

    // The record that stands in a slot, if any.
    pub fn record(&self, slot: u8) -> Option<Interval>
        ensures { result ≡ slice_index_or self.now.standing.records slot None }
    {
        self.standing.records.get(slot as usize).copied().flatten()
    }

    // The figures of the interval in a slot.
    pub fn figures<E: Edition>(
        &self,
        edition: &E,
        region: Region,
        slot: u8,
    ) -> Result<IntervalFigures, Refusal>
        ensures { result ≡ figures_at (E.Edition.terms edition.now) region self.now.standing slot }
    {
        if slot >= 24 {
            return Err(Refusal::Slot);
        }
        let Some(interval) = self.record(slot) else {
            return Err(Refusal::Nothing);
        };
        let Some(row) = self.settled_by() else {
            return Err(Refusal::Unsettled);
        };
        let settling = Settling {
            hour: self,
            edition,
            region,
            row: &row,
            interval: &interval,
        };
        Ok(settling.figures())
    }
}
