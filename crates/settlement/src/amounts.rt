// Amounts in cents: of kW over seconds, of what was sold the day before, and their totals.
ghost use Rattle.std.specs.Prelude.{◌≡◌, ◌^◌, ◌≤◌, unsigned_abs};
ghost use Rattle.settlement.specs.Formulas.{amount as amount_ℤ, shown as shown_ℤ, spin_price, sold as sold_ℤ, day_ahead, amounts};

use crate::editions::Sign;
use crate::figures::{Amounts, Region, Schedule, SpinPrices};
use arithmetic::{Divisor, nearest};

const KW_SECONDS_PER_MWH: Divisor = Divisor { value: 3_600_000 };

const KW_PER_MW: Divisor = Divisor { value: 1_000 };

// What some kW over some seconds come to at a price.
pub(crate) fn amount(kw: i64, price: i32, seconds: u16) -> i64
    requires kw { unsigned_abs kw ≤ 1206000000 }
    requires price { unsigned_abs price ≤ 1000000 }
    requires seconds { seconds ≤ 3600 }
    ensures value { result ≡ amount_ℤ kw price seconds }
    ensures bound { unsigned_abs result ≤ 1206000000000 }
{
    nearest(kw * price as i64 * seconds as i64, KW_SECONDS_PER_MWH)
}

impl Sign {
    // An amount with the sign with which it is shown.
    pub(crate) fn shown(self, cents: i64) -> i64
        requires { unsigned_abs cents ≤ 2 ^ 56 }
        ensures { result ≡ shown_ℤ self cents }
    {
        match self {
            Sign::Plus => cents,
            Sign::Minus => -cents,
        }
    }
}

impl SpinPrices {
    // The price of reserve in a region.
    pub fn of(&self, region: Region) -> i32
        ensures { result ≡ spin_price region self.now }
    {
        match region {
            Region::East => self.east,
            Region::West => self.west,
        }
    }
}

impl Amounts {
    // Amounts with their total.
    pub(crate) fn new(sign: Sign, energy: i64, loss: i64, congestion: i64) -> Amounts
        requires energy { unsigned_abs energy ≤ 2 ^ 56 }
        requires loss { unsigned_abs loss ≤ 2 ^ 56 }
        requires congestion { unsigned_abs congestion ≤ 2 ^ 56 }
        ensures { result ≡ amounts sign energy loss congestion }
    {
        Amounts {
            energy,
            loss,
            congestion,
            total: energy + loss - sign.shown(congestion),
        }
    }
}

impl Schedule {
    // What the row comes to at one of its prices.
    fn sold(&self, price: i32) -> i64
        ensures value { result ≡ sold_ℤ self.now price }
        ensures bound { unsigned_abs result ≤ 2 ^ 56 }
    {
        nearest(
            (self.generation as i64 - self.transactions as i64) * price as i64,
            KW_PER_MW,
        )
    }

    // What the row comes to, congestion negated.
    pub fn day_ahead(&self) -> Amounts
        ensures { result ≡ day_ahead self.now }
    {
        Amounts::new(
            Sign::Minus,
            self.sold(self.prices.energy),
            self.sold(self.prices.loss),
            -self.sold(self.prices.congestion),
        )
    }
}
