mod filling;

ghost use Rattle.std.specs.Prelude.{◌≡◌, ◌≤◌, length};
ghost use Rattle.record_store.specs.declared.places.Place.{Place};
ghost use Rattle.record_store.specs.Shelves.{InUse, Indexing};

use crate::places::Place;

// Lent places with an index that has, for each slot, the place of its latest record. The first places are in use.
// (Memory that the caller lends, and none from a heap.)
#[derive(Drop)]
pub(crate) struct Shelf<'a, T> {
    pub places: &'a mut [Place<T>],
    pub index: [Option<u16>; 600],
    pub used: u16,
    ghost slots: { length index ≡ 600 },
    ghost within: { used ≤ length places.now },
    ghost small: { length places.now ≤ 4096 },
    ghost in_use: { InUse (record { index = index; places = places.now; used = used }) },
    ghost indexing: { (d : Place T) → Indexing d (record { index = index; places = places.now; used = used }) },
}
