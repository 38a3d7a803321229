// The figures of an hour. Powers are in kW, readings in kWh, prices in cents per MWh (for reserve: cents per MW and
// hour), amounts in cents. A figure may lie outside its limits until it is checked.
ghost use Rattle.std.specs.Prelude.{Some};
ghost use Rattle.settlement.specs.Regions.{NamesRegion};
ghost use Rattle.settlement.specs.States.{state_name};

use std::fmt;

// The parts of a price.
#[derive(Clone, Copy, Default, PartialEq, Eq, Debug)]
pub struct Prices {
    pub energy: i32,
    pub loss: i32,
    pub congestion: i32,
}

// The price of spinning reserve, by region.
#[derive(Clone, Copy, Default, PartialEq, Eq, Debug)]
pub struct SpinPrices {
    pub east: i32,
    pub west: i32,
}

#[derive(Clone, Copy, PartialEq, Eq, Debug)]
pub enum Region {
    East,
    West,
}

// A number that no region goes by.
#[derive(Clone, Copy, PartialEq, Eq, Debug)]
pub struct UnknownRegion(pub u8);

impl TryFrom<u8> for Region {
    type Error = UnknownRegion;

    ghost try_from_gives = { NamesRegion };

    fn try_from(number: u8) -> Result<Region, UnknownRegion> {
        match number {
            0 => Ok(Region::East),
            1 => Ok(Region::West),
            _ => Err(UnknownRegion(number)),
        }
    }
}

// What an interval's output may be limited to: the two basepoints and the energy limit.
#[derive(Clone, Copy, Default, PartialEq, Eq, Debug)]
pub struct Limits {
    pub rtd: i32,
    pub agc: i32,
    pub energy: i32,
}

// The record of one interval: its length, the flags under which it ran, its average output, the limits on it, and what
// was contracted, held in reserve and paid in real time.
#[derive(Clone, Copy, Default, PartialEq, Eq, Debug)]
pub struct Interval {
    pub seconds: u16,
    pub flags: u8,
    pub average: i32,
    pub limits: Limits,
    pub transactions: i32,
    pub spin: i32,
    pub prices: Prices,
    pub reserve: SpinPrices,
}

// What was sold for an hour the day before.
#[derive(Clone, Copy, Default, PartialEq, Eq, Debug)]
pub struct Schedule {
    pub generation: i32,
    pub transactions: i32,
    pub spin: i32,
    pub prices: Prices,
}

// What stands for an hour: its schedule row, its meter reading, and the record of each of its 24 slots.
#[derive(Clone, Copy, PartialEq, Eq, Debug)]
pub struct Standing {
    pub schedule: Option<Schedule>,
    pub reading: Option<i32>,
    pub records: [Option<Interval>; 24],
}

// How many intervals stand in an hour, their seconds, and what their averages come to, in kW seconds.
#[derive(Clone, Copy, Default, PartialEq, Eq, Debug)]
pub struct Tally {
    pub intervals: u8,
    pub seconds: u32,
    pub volume: i64,
}

// What one interval of a settled hour comes to: its shared kW, its basis and its balance in kW, and its amounts.
#[derive(Clone, Copy, PartialEq, Eq, Debug)]
pub struct IntervalFigures {
    pub adjusted: i64,
    pub basis: i64,
    pub balance: i64,
    pub energy: i64,
    pub loss: i64,
    pub congestion: i64,
    pub spin: i64,
}

// What intervals come to together: balance x seconds in kW seconds, and their amounts.
#[derive(Clone, Copy, Default, PartialEq, Eq, Debug)]
pub struct Sums {
    pub balance: i64,
    pub energy: i64,
    pub loss: i64,
    pub congestion: i64,
    pub spin: i64,
}

#[derive(Clone, Copy, Default, PartialEq, Eq, Debug)]
pub enum State {
    Settled,
    #[default]
    Unsettled,
}

impl fmt::Display for State {
    ghost output = { λ state. Some (state_name state) };

    fn fmt<W: fmt::Write>(&self, f: &mut fmt::Formatter<W>) -> fmt::Result {
        f.write_str(match self {
            State::Settled => "settled",
            State::Unsettled => "unsettled",
        })
    }
}

// Amounts by component, and what they come to.
#[derive(Clone, Copy, Default, PartialEq, Eq, Debug)]
pub struct Amounts {
    pub energy: i64,
    pub loss: i64,
    pub congestion: i64,
    pub total: i64,
}

// The line of an hour: what stands in it, what was sold the day before, and what is balanced in real time.
#[derive(Clone, Copy, Default, PartialEq, Eq, Debug)]
pub struct HourLine {
    pub state: State,
    pub intervals: u8,
    pub seconds: u16,
    pub ahead: Amounts,
    // The sum of balance x seconds, in kW seconds.
    pub balance: i64,
    pub balancing: Amounts,
    pub spin: i64,
    pub total: i64,
}
