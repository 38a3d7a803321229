// Sharing a reading among the intervals of its hour.
ghost use Rattle.std.specs.Prelude.{◌≡◌, ◌≤◌, unsigned_abs};
ghost use Rattle.settlement.specs.Standing.{StandsIn};
ghost use Rattle.settlement.specs.Formulas.{adjusted as adjusted_ℤ};

use crate::figures::Interval;
use crate::hour::Hour;
use arithmetic::{Divisor, nearest};

impl Hour {
    // The kW that fall to one of the hour's intervals: its average, or its share of the reading by the averages, or the
    // reading itself where no interval has any output.
    pub(super) fn adjusted(&self, interval: &Interval) -> i64
        requires { StandsIn self.now.standing interval.now }
        ensures value { result ≡ adjusted_ℤ self.now.standing interval.now }
        ensures bound { unsigned_abs result ≤ 1200000000 }
    {
        let average = interval.average as i64;
        match self.standing.reading {
            None => average,
            Some(kwh) => match Divisor::new(self.counted.volume.unsigned_abs()) {
                Some(volume) => nearest(3600 * average * kwh as i64, volume),
                None => kwh as i64,
            },
        }
    }
}
