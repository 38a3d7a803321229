// A store that reuses its places: as much is spent as stands, and a rewrite costs nothing.
ghost use Rattle.std.specs.Prelude.{◌≡◌, ◌+◌, ◌-◌, length, take, Some, None, IfOk, MatchResult, OnErr};
ghost use Rattle.settlement.specs.declared.figures.Interval.{Interval};
ghost use Rattle.record_store.specs.declared.places.Place.{Place};
ghost use Rattle.settlement.specs.Rulings.{ruled, changed};
ghost use Rattle.record_store.specs.Meaning.{fresh, full_refused, rewritten};
ghost use Rattle.record_store.specs.Places.{places_refused, capacity_of};
ghost use Rattle.record_store.specs.Shelves.{key as key_of, named, Once};
ghost use Rattle.record_store.specs.Contents.{contents};
ghost use Rattle.record_store.specs.Pools.{pool_means, pool_lawful};

use crate::faults::StoreFault;
use crate::key::Key;
use crate::places::{Place, check_places};
use crate::shelf::Shelf;
use crate::store::Store;
use settlement::Interval;

// The records that stand, packed into the first places of lent memory.
#[derive(Drop)]
pub struct Pool<'a> {
    shelf: Shelf<'a, Interval>,
    ghost once: { (d : Place Interval) → Once d (contents shelf) },
}

// Made as a journal is: a trait for both would have to name the lifetime of the memory, and be no shorter.
impl<'a> Pool<'a> {
    // An empty pool with as many places as are lent, or none where a store may not have so many.
    pub fn over(places: &'a mut [Place<Interval>]) -> Pool<'a>
        ensures means { pool_means (contents result.shelf) ≡ fresh (capacity_of (length places.old)) 0 }
        ensures memory { result.shelf.places.now ≡ take (capacity_of (length places.old)) places.old }
    {
        Pool {
            shelf: Shelf::over(places),
        }
    }

    // An empty pool over just this memory, whatever it held, if a store may have so many places. The memory is as it was.
    pub fn new(places: &'a mut [Place<Interval>]) -> Result<Pool<'a>, StoreFault>
        ensures memory { IfOk result (λ p. p.shelf.places.now ≡ places.old) }
        ensures means { MatchResult result (λ p. (places_refused (length places.old) ≡ None) × (pool_means (contents p.shelf) ≡ fresh (length places.old) 0)) (λ e. places_refused (length places.old) ≡ Some e) }
    {
        check_places(places.len())?;
        Ok(Pool::over(places))
    }

    // A record in the place of the one that stands in its slot. (Place and key are found together; that they belong together
    // holds of one state of the shelf alone, and so of no type.)
    fn replace(&mut self, at: u16, key: Key, interval: &Interval)
        requires { named (contents self.old.shelf) (key_of key.hour key.slot) ≡ Some at }
        ensures { pool_means (contents self.new.shelf) ≡ rewritten (pool_means (contents self.old.shelf)) key.hour key.slot (Some interval.now) self.old.shelf.used }
    {
        self.shelf.replace(at, key, *interval);
    }

    // A record more, in a slot where none stands, if there is room.
    fn add(&mut self, key: Key, interval: &Interval) -> Result<(), StoreFault>
        requires { named (contents self.old.shelf) (key_of key.hour key.slot) ≡ None }
        ensures answer { result ≡ ruled (full_refused (pool_means (contents self.old.shelf)) key.hour key.slot) tt }
        ensures after { pool_means (contents self.new.shelf) ≡ changed (full_refused (pool_means (contents self.old.shelf)) key.hour key.slot) (rewritten (pool_means (contents self.old.shelf)) key.hour key.slot (Some interval.now) (self.old.shelf.used + 1)) (pool_means (contents self.old.shelf)) }
        ensures kept { OnErr result (self.new ≡ self.old) }
    {
        self.shelf.push(key, *interval)
    }

    // A record less.
    fn remove(&mut self, at: u16, key: Key)
        requires { named (contents self.old.shelf) (key_of key.hour key.slot) ≡ Some at }
        ensures { pool_means (contents self.new.shelf) ≡ rewritten (pool_means (contents self.old.shelf)) key.hour key.slot None (self.old.shelf.used - 1) }
    {
        self.shelf.remove(at, key);
    }
}

impl<'a> Store for Pool<'a> {
    ghost means = { λ p. pool_means (contents p.shelf) };

    ghost lawful = { λ p. pool_lawful (contents p.shelf) p.shelf.within };

    fn read(&self, hour: u8, slot: u8) -> Option<Interval> {
        // Not by `Shelf::get`, through which a record would be copied once more.
        let Ok(key) = Key::new(hour, slot) else {
            return None;
        };
        let at = self.shelf.find(key)?;
        Some(self.shelf.places[at as usize].content)
    }

    fn write(&mut self, hour: u8, slot: u8, interval: &Interval) -> Result<(), StoreFault> {
        let key = Key::new(hour, slot)?;
        if let Some(at) = self.shelf.find(key) {
            self.replace(at, key, interval);
            return Ok(());
        }
        self.add(key, interval)
    }

    fn take(&mut self, hour: u8, slot: u8) -> Result<(), StoreFault> {
        let key = Key::new(hour, slot)?;
        if let Some(at) = self.shelf.find(key) {
            self.remove(at, key);
        }
        Ok(())
    }

    fn spent(&self) -> usize {
        self.shelf.used()
    }

    fn capacity(&self) -> usize {
        self.shelf.capacity()
    }
}
