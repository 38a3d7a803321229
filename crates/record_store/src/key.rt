// Which slot of which hour, once it is known that stores have it.
ghost use Rattle.std.specs.Prelude.{◌≡◌, ◌<◌, ◌≤◌, None, Some, MatchResult};
ghost use Rattle.record_store.specs.Meaning.{slot_refused};
ghost use Rattle.record_store.specs.Shelves.{key as key_of};

use crate::faults::StoreFault;
use crate::places::Place;

// The hours of a store, and the slots of an hour.
const HOURS: u8 = 25;

const SLOTS: u8 = 24;

// A slot of an hour that stores have.
#[derive(Clone, Copy)]
pub(crate) struct Key {
    pub hour: u8,
    pub slot: u8,
    ghost hours: { hour ≤ 24 },
    ghost slots: { slot ≤ 23 },
}

impl Key {
    // That slot of that hour, or which of the two no store has, the hour first.
    pub fn new(hour: u8, slot: u8) -> Result<Key, StoreFault>
        ensures { MatchResult result (λ k. (slot_refused hour slot ≡ None) × (k.hour ≡ hour) × (k.slot ≡ slot)) (λ e. slot_refused hour slot ≡ Some e) }
    {
        if hour >= HOURS {
            return Err(StoreFault::Hour { hour, slot });
        }
        if slot >= SLOTS {
            return Err(StoreFault::Slot { hour, slot });
        }
        Ok(Key { hour, slot })
    }

    // Its number among the slots of all hours.
    pub fn index(self) -> usize
        ensures number { result ≡ key_of self.hour self.slot }
        ensures below { result < 600 }
    {
        SLOTS as usize * self.hour as usize + self.slot as usize
    }

    // A place for what is kept of the slot.
    pub fn place<T>(self, content: T) -> Place<T>
        ensures { result ≡ record { hour = self.hour; slot = self.slot; content = content } }
    {
        Place {
            hour: self.hour,
            slot: self.slot,
            content,
        }
    }
}
