// What a store refuses. These are the faults of layer S; the layers above pass them on whole.
ghost use Rattle.std.specs.Prelude.{◌≡◌};
ghost use Rattle.record_store.specs.Faults.{figures};

// The first thing that is wrong with a call. Hour and slot are those that the call named, also where they are what is
// refused.
#[derive(Clone, Copy, PartialEq, Eq, Debug)]
pub enum StoreFault {
    // The memory has fewer or more places than a store may have.
    Places,
    // No store has that hour.
    Hour { hour: u8, slot: u8 },
    // No hour has that slot.
    Slot { hour: u8, slot: u8 },
    // The change costs more than is left.
    Full { hour: u8, slot: u8 },
}

impl StoreFault {
    // The number that the fault goes by.
    pub fn number(self) -> u8
        ensures { result ≡ (figures self).number }
    {
        match self {
            StoreFault::Places => 4,
            StoreFault::Hour { .. } => 5,
            StoreFault::Slot { .. } => 6,
            StoreFault::Full { .. } => 12,
        }
    }

    // The hour that the call named, 0 where it named none: so it is told and printed.
    pub fn hour(self) -> u8
        ensures { result ≡ (figures self).hour }
    {
        match self {
            StoreFault::Places => 0,
            StoreFault::Hour { hour, .. }
            | StoreFault::Slot { hour, .. }
            | StoreFault::Full { hour, .. } => hour,
        }
    }

    // The slot that the call named, 0 where it named none: so it is told and printed.
    pub fn slot(self) -> u8
        ensures { result ≡ (figures self).slot }
    {
        match self {
            StoreFault::Places => 0,
            StoreFault::Hour { slot, .. }
            | StoreFault::Slot { slot, .. }
            | StoreFault::Full { slot, .. } => slot,
        }
    }
}
