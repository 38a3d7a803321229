// The flags under which an interval ran. A record has them as a sum, a bit each. They are numbers, and `has` takes two:
// the sum is one figure of the day file's width, which may break its limits and is refused by its number; a narrower
// type would ask more of callers.
ghost use Rattle.std.specs.Prelude.{◌≡◌};
ghost use Rattle.settlement.specs.Limits.{has_flag};

pub const LARGE_EVENT_PICKUP: u8 = 1;

pub const PURPA_FIXED: u8 = 2;

pub const OUT_OF_MERIT: u8 = 4;

pub const WIND: u8 = 8;

pub const WIND_LIMITED: u8 = 16;

pub const INTERVENTION: u8 = 32;

pub const REGULATING: u8 = 64;

// Whether a flag is one of those that make up a sum.
pub fn has(flags: u8, flag: u8) -> bool
    ensures { result ≡ has_flag flags flag }
{
    flags & flag != 0
}
