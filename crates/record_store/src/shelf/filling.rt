// What a shelf has, and filling it and emptying it, a place at a time.
ghost use Rattle.std.specs.Prelude.{◌≡◌, ◌≤◌, length, take, is_some, Some, MatchResult, OnErr};
ghost use Rattle.record_store.specs.declared.places.Place.{Place};
ghost use Rattle.record_store.specs.Meaning.{bounded};
ghost use Rattle.record_store.specs.Places.{capacity_of};
ghost use Rattle.record_store.specs.Shelves.{key as key_of, empty, named, held, laid, Pushed, Unpushed, removed, Once};
ghost use Rattle.record_store.specs.Contents.{contents};

use crate::faults::StoreFault;
use crate::key::Key;
use crate::places::{Place, check_places};
use crate::shelf::Shelf;

// As many places as a store may have, or none: a store over any other number is a store, of capacity 0.
fn capacity(places: usize) -> usize
    ensures value { result ≡ capacity_of places }
    ensures least { result ≤ places }
    ensures most { result ≤ 4096 }
{
    match check_places(places) {
        Ok(()) => places,
        Err(_) => 0,
    }
}

impl<'a, T: Copy> Shelf<'a, T> {
    // An empty shelf, whatever the memory held.
    pub fn over(places: &'a mut [Place<T>]) -> Shelf<'a, T>
        ensures { contents result ≡ empty (take (capacity_of (length places.old)) places.old) }
    {
        let capacity = capacity(places.len());
        Shelf {
            places: &mut places[..capacity],
            index: [None; 600],
            used: 0,
        }
    }

    // How many places are in use.
    pub fn used(&self) -> usize
        ensures { result ≡ self.now.used }
    {
        self.used as usize
    }

    // How many places there are.
    pub fn capacity(&self) -> usize
        ensures { result ≡ length self.now.places.now }
    {
        self.places.len()
    }

    // The place that the index names for a slot.
    pub fn find(&self, key: Key) -> Option<u16>
        ensures place { result ≡ named (contents self.now) (key_of key.hour key.slot) }
        ensures kept { is_some result ≡ is_some (bounded (held (contents self.now)) key.hour key.slot) }
    {
        self.index[key.index()]
    }

    // What is kept for a slot.
    pub fn get(&self, key: Key) -> Option<T>
        ensures { result ≡ bounded (held (contents self.now)) key.hour key.slot }
    {
        let at = self.find(key)?;
        Some(self.places[at as usize].content)
    }

    // Lays a record into the place that its slot has.
    pub fn replace(&mut self, at: u16, key: Key, content: T)
        requires { named (contents self.old) (key_of key.hour key.slot) ≡ Some at }
        ensures { contents self.new ≡ laid (contents self.old) at (record { hour = key.hour; slot = key.slot; content = content }) }
    {
        self.places[at as usize] = key.place(content);
        self.index[key.index()] = Some(at);
    }

    // Lays a record into the first place that is not in use, if there is one.
    pub fn push(&mut self, key: Key, content: T) -> Result<(), StoreFault>
        ensures laid { MatchResult result (Pushed (contents self.old) (record { hour = key.hour; slot = key.slot; content = content }) (contents self.new)) (Unpushed (contents self.old) key.hour key.slot (contents self.new)) }
        ensures kept { OnErr result (self.new ≡ self.old) }
    {
        if self.used() >= self.capacity() {
            let Key { hour, slot } = key;
            return Err(StoreFault::Full { hour, slot });
        }
        self.places[self.used as usize] = key.place(content);
        self.index[key.index()] = Some(self.used);
        self.used += 1;
        Ok(())
    }

    // Takes a record away: the last one moves to its place.
    pub fn remove(&mut self, at: u16, key: Key)
        requires once { (d : Place T) → Once d (contents self.old) }
        requires here { named (contents self.old) (key_of key.hour key.slot) ≡ Some at }
        ensures { (d : Place T) → contents self.new ≡ removed d (contents self.old) at key.hour key.slot }
    {
        let last = self.places[self.used as usize - 1];
        let moved = Key {
            hour: last.hour,
            slot: last.slot,
        };
        self.places[at as usize] = last;
        self.index[moved.index()] = Some(at);
        self.index[key.index()] = None;
        self.used -= 1;
    }
}
