// The editions of the operator's text. An edition says from which kW an interval is balanced, and with which sign its
// congestion is shown.
ghost use Rattle.std.specs.Prelude.{◌≡◌};
ghost use Rattle.settlement.specs.Editions.{Terms, Lawful, newer, older, is_free, held, scenario};
ghost use Rattle.settlement.specs.Laws.{newer_lawful, older_lawful};

use crate::figures::Limits;
use crate::flags;
use crate::flags::has;

// The sign with which congestion is shown: as its price gives it, or negated.
#[derive(Clone, Copy, PartialEq, Eq, Debug)]
pub enum Sign {
    Plus,
    Minus,
}

// The case that an interval falls under, with the limit that its adjusted energy is held to.
#[derive(Clone, Copy, PartialEq, Eq, Debug)]
pub enum Scenario {
    // A large event reserve pickup, fixed under PURPA, out of merit for reliability, or wind that is not limited.
    Free,
    // Operator intervention: the RTD basepoint.
    Intervention(i32),
    // Regulating: the AGC basepoint.
    Regulating(i32),
    // All others: the energy limit.
    Limited(i32),
}

// Whether an interval is settled at its adjusted energy, whatever its limits.
fn is_free(flags: u8) -> bool
    ensures { result ≡ is_free flags }
{
    has(flags, flags::LARGE_EVENT_PICKUP)
        || has(flags, flags::PURPA_FIXED)
        || has(flags, flags::OUT_OF_MERIT)
        || (has(flags, flags::WIND) && !has(flags, flags::WIND_LIMITED))
}

impl Scenario {
    // The first scenario that applies.
    pub fn of(flags: u8, limits: &Limits) -> Scenario
        ensures { result ≡ scenario flags limits.now }
    {
        if is_free(flags) {
            Scenario::Free
        } else if has(flags, flags::INTERVENTION) {
            Scenario::Intervention(limits.rtd)
        } else if has(flags, flags::REGULATING) {
            Scenario::Regulating(limits.agc)
        } else {
            Scenario::Limited(limits.energy)
        }
    }

    // The adjusted energy, or the scenario's limit where that is smaller.
    pub fn hold(self, adjusted: i64) -> i64
        ensures { result ≡ held self adjusted }
    {
        // By reference: an or-pattern over the value itself gets no proof from today's checker.
        match &self {
            Scenario::Free => adjusted,
            Scenario::Intervention(limit)
            | Scenario::Regulating(limit)
            | Scenario::Limited(limit) => adjusted.min(i64::from(*limit)),
        }
    }
}

pub trait Edition {
    ghost terms: { Self → Terms };

    // The kW from which an interval is balanced.
    fn basis(&self, flags: u8, adjusted: i64, limits: &Limits) -> i64
        ensures { result ≡ (terms self.now).rule flags adjusted limits.now };

    // The sign with which congestion is shown.
    fn sign(&self) -> Sign
        ensures { result ≡ (terms self.now).sign };

    ghost lawful: { (e : Self) → Lawful (terms e) };
}

// The newer edition: the scenarios as they are, and congestion negated.
#[derive(Clone, Copy, PartialEq, Eq, Debug)]
pub struct Newer;

impl Edition for Newer {
    ghost terms = { λ _. newer };

    ghost lawful = { λ e. newer_lawful };

    fn basis(&self, flags: u8, adjusted: i64, limits: &Limits) -> i64 {
        Scenario::of(flags, limits).hold(adjusted)
    }

    fn sign(&self) -> Sign {
        Sign::Minus
    }
}

// The older edition: a negative basis is raised to zero, and congestion is as its price gives it.
#[derive(Clone, Copy, PartialEq, Eq, Debug)]
pub struct Older;

impl Edition for Older {
    ghost terms = { λ _. older };

    ghost lawful = { λ e. older_lawful };

    fn basis(&self, flags: u8, adjusted: i64, limits: &Limits) -> i64 {
        Newer.basis(flags, adjusted, limits).max(0)
    }

    fn sign(&self) -> Sign {
        Sign::Plus
    }
}
