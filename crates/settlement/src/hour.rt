mod changes;
mod line;
mod settling;
mod sharing;

ghost use Rattle.std.specs.Prelude.{◌≡◌, false, length, is_some, Some, None, MatchResult};
ghost use Rattle.settlement.specs.Limits.{hour_refusal};
ghost use Rattle.settlement.specs.Standing.{intervals, tally_of};

use crate::figures::{Schedule, Standing, Tally};
use crate::limits::Refusal;

// An hour's figures, each within its limits, with at most 3,600 standing seconds.
#[derive(Clone, Copy)]
pub struct Hour {
    standing: Standing,
    counted: Tally,
    ghost slots: { length standing.records ≡ 24 },
    ghost within: { is_some (hour_refusal standing) ≡ false },
    ghost tallied: { counted ≡ tally_of (intervals standing) },
}

impl Hour {
    // The hour of some figures, or the first limit that they break: slot by slot, then the seconds of the hour, then the
    // schedule row, then the reading.
    pub fn new(standing: Standing) -> Result<Hour, Refusal>
        ensures { MatchResult result (λ h. (hour_refusal standing ≡ None) × (h.standing ≡ standing)) (λ e. hour_refusal standing ≡ Some e) }
    {
        let counted = standing.tally()?;
        Ok(Hour { standing, counted })
    }

    // Its schedule row, if it has one.
    pub fn scheduled(&self) -> Option<Schedule>
        ensures { result ≡ self.now.standing.schedule }
    {
        self.standing.schedule
    }

    // Its reading, if it has one.
    pub fn reading(&self) -> Option<i32>
        ensures { result ≡ self.now.standing.reading }
    {
        self.standing.reading
    }
}
