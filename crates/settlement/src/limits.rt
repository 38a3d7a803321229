// The limits of the figures, and which of them is broken first.
ghost use Rattle.std.specs.Prelude.{◌≡◌};
ghost use Rattle.settlement.specs.Rulings.{ruled};
ghost use Rattle.settlement.specs.Limits.{between, fits_prices, fits_flags, fits_limits, fits_sold, fits_powers, fits_real_time_prices, interval_refusal, schedule_refusal, reading_refusal, number as number_of};

use crate::figures::{Interval, Limits, Prices, Schedule};
use crate::flags;
use crate::flags::has;

const LEAST_SECONDS: u16 = 6;

const MOST_SECONDS: u16 = 3_600;

// The largest power, basepoint, limit or reading, in kW or kWh.
const MOST_KW: i32 = 2_000_000;

// The largest price, in cents.
const MOST_CENTS: i32 = 1_000_000;

// An output, a transaction, a reserve or a reading.
const POWER: Span = Span {
    low: 0,
    high: MOST_KW,
};

// A basepoint or an energy limit, which may be negative.
const BASEPOINT: Span = Span {
    low: -MOST_KW,
    high: MOST_KW,
};

const PRICE: Span = Span {
    low: -MOST_CENTS,
    high: MOST_CENTS,
};

const ALL_FLAGS: u8 = 127;

// Why figures, a change to an hour or a question about it are refused, each with its number: the first reason that
// applies.
#[derive(Clone, Copy, PartialEq, Eq, Debug)]
pub enum Refusal {
    // The slot is above 23.
    Slot = 6,
    // A figure lies outside its limits.
    Seconds = 7,
    Flags = 8,
    Power = 9,
    Price = 10,
    // The seconds of the hour exceed 3,600.
    Overfull = 11,
    // Nothing stands there.
    Nothing = 13,
    // A reading lies outside its limits.
    Reading = 14,
    // The hour is not settled.
    Unsettled = 15,
}

impl Refusal {
    // The number that a refusal goes by.
    pub fn number(self) -> u8
        ensures { result ≡ number_of self }
    {
        self as u8
    }
}

// What a figure may be, from a lowest to a highest number. The library's `low..=high` would say it too, but can't be a
// constant.
#[derive(Clone, Copy)]
struct Span {
    low: i32,
    high: i32,
}

impl Span {
    fn contains(self, figure: i32) -> bool
        ensures { result ≡ between self.low self.high figure }
    {
        (self.low..=self.high).contains(&figure)
    }
}

// A sum of the seven flags in which wind output is limited only where there is wind.
fn are_flags(flags: u8) -> bool
    ensures { result ≡ fits_flags flags }
{
    flags <= ALL_FLAGS && (!has(flags, flags::WIND_LIMITED) || has(flags, flags::WIND))
}

impl Prices {
    fn within(&self) -> bool
        ensures { result ≡ fits_prices self.now }
    {
        PRICE.contains(self.energy) && PRICE.contains(self.loss) && PRICE.contains(self.congestion)
    }
}

impl Limits {
    fn within(&self) -> bool
        ensures { result ≡ fits_limits self.now }
    {
        BASEPOINT.contains(self.rtd)
            && BASEPOINT.contains(self.agc)
            && BASEPOINT.contains(self.energy)
    }
}

impl Interval {
    fn powers_within(&self) -> bool
        ensures { result ≡ fits_powers self.now }
    {
        POWER.contains(self.average)
            && self.limits.within()
            && POWER.contains(self.transactions)
            && POWER.contains(self.spin)
    }

    fn prices_within(&self) -> bool
        ensures { result ≡ fits_real_time_prices self.now }
    {
        self.prices.within()
            && PRICE.contains(self.reserve.east)
            && PRICE.contains(self.reserve.west)
    }

    // Whether the record is within its limits, or the first that it breaks: seconds, flags, power, price.
    pub fn check(&self) -> Result<(), Refusal>
        ensures { result ≡ ruled (interval_refusal self.now) tt }
    {
        if !(LEAST_SECONDS..=MOST_SECONDS).contains(&self.seconds) {
            return Err(Refusal::Seconds);
        }
        if !are_flags(self.flags) {
            return Err(Refusal::Flags);
        }
        if !self.powers_within() {
            return Err(Refusal::Power);
        }
        if !self.prices_within() {
            return Err(Refusal::Price);
        }
        Ok(())
    }
}

impl Schedule {
    fn powers_within(&self) -> bool
        ensures { result ≡ fits_sold self.now }
    {
        POWER.contains(self.generation)
            && POWER.contains(self.transactions)
            && POWER.contains(self.spin)
    }

    // Whether the row is within its limits, or the first that it breaks: power, price.
    pub fn check(&self) -> Result<(), Refusal>
        ensures { result ≡ ruled (schedule_refusal self.now) tt }
    {
        if !self.powers_within() {
            return Err(Refusal::Power);
        }
        if !self.prices.within() {
            return Err(Refusal::Price);
        }
        Ok(())
    }
}

// Whether a reading is within its limits.
pub fn check_reading(kwh: i32) -> Result<(), Refusal>
    ensures { result ≡ ruled (reading_refusal kwh) tt }
{
    if !POWER.contains(kwh) {
        return Err(Refusal::Reading);
    }
    Ok(())
}
