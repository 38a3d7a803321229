// Memory that a caller lends to a store.
ghost use Rattle.std.specs.Prelude.{◌≡◌};
ghost use Rattle.settlement.specs.Rulings.{ruled};
ghost use Rattle.record_store.specs.Places.{places_refused};

use crate::faults::StoreFault;

// The fewest and the most places of a store.
const LEAST_PLACES: usize = 24;

const MOST_PLACES: usize = 4_096;

// A place for what is kept of a slot.
#[derive(Clone, Copy, Default, PartialEq, Eq, Debug)]
pub struct Place<T> {
    pub hour: u8,
    pub slot: u8,
    pub content: T,
}

// Whether a store may have that many places.
pub fn check_places(count: usize) -> Result<(), StoreFault>
    ensures { result ≡ ruled (places_refused count) tt }
{
    if (LEAST_PLACES..=MOST_PLACES).contains(&count) {
        Ok(())
    } else {
        Err(StoreFault::Places)
    }
}
