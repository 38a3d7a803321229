// Settling an hour: the figures of its intervals, and their sums.
ghost use Rattle.std.specs.Prelude.{◌≡◌, ◌≤◌, ◌-ℤ◌, Some, unsigned_abs};
ghost use Rattle.settlement.specs.Standing.{intervals, StandsIn};
ghost use Rattle.settlement.specs.Formulas.{amount as amount_ℤ, spin_price, figures as figures_ℤ, sums as sums_ℤ, with_figures};
ghost use Rattle.settlement.specs.Bounds.{FiguresWithin, SumsWithin};

use crate::amounts::amount;
use crate::editions::Edition;
use crate::figures::{Interval, IntervalFigures, Region, Schedule, Sums};
use crate::hour::Hour;

// An interval of an hour, and what settles it: an edition, a region, and the hour's schedule row.
#[derive(Drop)]
pub(super) struct Settling<'a, E> {
    pub(super) hour: &'a Hour,
    pub(super) edition: &'a E,
    pub(super) region: Region,
    pub(super) row: &'a Schedule,
    pub(super) interval: &'a Interval,
    ghost sold: { hour.now.standing.schedule ≡ Some row.now },
    ghost stands: { StandsIn hour.now.standing interval.now },
}

impl<E: Edition> Settling<'_, E> {
    // What is due beyond the schedule, with the change in transactions set off.
    fn balance(&self, basis: i64) -> i64
        requires { unsigned_abs basis ≤ 1200000000 }
        ensures value { result ≡ basis -ℤ self.now.row.now.generation -ℤ (self.now.interval.now.transactions -ℤ self.now.row.now.transactions) }
        ensures bound { unsigned_abs result ≤ 1206000000 }
    {
        basis
            - self.row.generation as i64
            - (self.interval.transactions as i64 - self.row.transactions as i64)
    }

    // What the reserve comes to beyond the schedule.
    fn spin(&self) -> i64
        ensures value { result ≡ amount_ℤ (self.now.interval.now.spin -ℤ self.now.row.now.spin) (spin_price self.now.region self.now.interval.now.reserve) self.now.interval.now.seconds }
        ensures bound { unsigned_abs result ≤ 1206000000000 }
    {
        amount(
            self.interval.spin as i64 - self.row.spin as i64,
            self.interval.reserve.of(self.region),
            self.interval.seconds,
        )
    }

    // What the interval comes to.
    pub(super) fn figures(&self) -> IntervalFigures
        ensures value { result ≡ figures_ℤ (E.Edition.terms self.now.edition.now) self.now.region self.now.row.now self.now.hour.now.standing self.now.interval.now }
        ensures within { FiguresWithin result }
    {
        let interval = self.interval;
        let adjusted = self.hour.adjusted(interval);
        let basis = self
            .edition
            .basis(interval.flags, adjusted, &interval.limits);
        let balance = self.balance(basis);
        IntervalFigures {
            adjusted,
            basis,
            balance,
            energy: amount(balance, interval.prices.energy, interval.seconds),
            loss: amount(balance, interval.prices.loss, interval.seconds),
            congestion: self.edition.sign().shown(amount(
                balance,
                interval.prices.congestion,
                interval.seconds,
            )),
            spin: self.spin(),
        }
    }
}

impl Sums {
    // One interval more. There is room for the 24 of an hour.
    fn add(&mut self, seconds: u16, figures: &IntervalFigures)
        requires seconds { seconds ≤ 3600 }
        requires room { SumsWithin 23 self.old }
        requires figures { FiguresWithin figures.now }
        ensures { self.new ≡ with_figures self.old seconds figures.now }
    {
        self.balance += figures.balance * seconds as i64;
        self.energy += figures.energy;
        self.loss += figures.loss;
        self.congestion += figures.congestion;
        self.spin += figures.spin;
    }
}

impl Hour {
    // What the hour's intervals come to together, by its schedule row.
    pub(super) fn sums<E: Edition>(&self, edition: &E, region: Region, row: &Schedule) -> Sums
        requires { self.now.standing.schedule ≡ Some row.now }
        ensures value { result ≡ sums_ℤ (E.Edition.terms edition.now) region row.now self.now.standing (intervals self.now.standing) }
        ensures within { SumsWithin 24 result }
    {
        let mut sums = Sums::default();
        // Not `iter().flatten()`: it proves too, but a day then takes over twice what the plain peer in bench/ takes.
        for record in &self.standing.records {
            if let Some(interval) = record {
                let settling = Settling {
                    hour: self,
                    edition,
                    region,
                    row,
                    interval,
                };
                sums.add(interval.seconds, &settling.figures());
            }
        }
        sums
    }
}
