// The settlement of one hour of a power station, to the cent: its figures and their limits, the editions of the
// operator's text, the sharing of a reading, and the hour's line.
#![tactic(auto)]

mod amounts;
mod editions;
mod figures;
pub mod flags;
mod hour;
mod limits;
mod tally;
mod worked;

pub use editions::{Edition, Newer, Older, Scenario, Sign};
pub use figures::{
    Amounts, HourLine, Interval, IntervalFigures, Limits, Prices, Region, Schedule, SpinPrices,
    Standing, State, UnknownRegion,
};
pub use hour::Hour;
pub use limits::{Refusal, check_reading};
pub use worked::worked_figures;
