// A store that only adds entries: each change to a slot is one more, and the latest for a slot counts.
ghost use Rattle.std.specs.Prelude.{◌≡◌, ◌+◌, length, take, Some, None, IfOk, MatchResult, OnErr};
ghost use Rattle.settlement.specs.Rulings.{ruled, changed};
ghost use Rattle.record_store.specs.Meaning.{fresh, full_refused, rewritten};
ghost use Rattle.record_store.specs.Places.{places_refused, capacity_of};
ghost use Rattle.record_store.specs.Contents.{contents};
ghost use Rattle.record_store.specs.Journals.{journal_means, journal_lawful};

use crate::faults::StoreFault;
use crate::key::Key;
use crate::places::{Place, check_places};
use crate::shelf::Shelf;
use crate::store::Store;
use settlement::Interval;

// The entries in the order in which they were made; one without a record tells that it was taken away.
#[derive(Drop)]
pub struct Journal<'a> {
    shelf: Shelf<'a, Option<Interval>>,
}

impl<'a> Journal<'a> {
    // An empty journal with as many places as are lent, or none where a store may not have so many.
    pub fn over(places: &'a mut [Place<Option<Interval>>]) -> Journal<'a>
        ensures means { journal_means (contents result.shelf) ≡ fresh (capacity_of (length places.old)) 1 }
        ensures memory { result.shelf.places.now ≡ take (capacity_of (length places.old)) places.old }
    {
        Journal {
            shelf: Shelf::over(places),
        }
    }

    // An empty journal over just this memory, whatever it held, if a store may have so many places. The memory is as it was.
    pub fn new(places: &'a mut [Place<Option<Interval>>]) -> Result<Journal<'a>, StoreFault>
        ensures memory { IfOk result (λ j. j.shelf.places.now ≡ places.old) }
        ensures means { MatchResult result (λ j. (places_refused (length places.old) ≡ None) × (journal_means (contents j.shelf) ≡ fresh (length places.old) 1)) (λ e. places_refused (length places.old) ≡ Some e) }
    {
        check_places(places.len())?;
        Ok(Journal::over(places))
    }

    // One entry more, if there is room.
    fn enter(&mut self, key: Key, entry: Option<Interval>) -> Result<(), StoreFault>
        ensures answer { result ≡ ruled (full_refused (journal_means (contents self.old.shelf)) key.hour key.slot) tt }
        ensures after { journal_means (contents self.new.shelf) ≡ changed (full_refused (journal_means (contents self.old.shelf)) key.hour key.slot) (rewritten (journal_means (contents self.old.shelf)) key.hour key.slot entry (self.old.shelf.used + 1)) (journal_means (contents self.old.shelf)) }
        ensures kept { OnErr result (self.new ≡ self.old) }
    {
        self.shelf.push(key, entry)
    }
}

impl<'a> Store for Journal<'a> {
    ghost means = { λ j. journal_means (contents j.shelf) };

    ghost lawful = { λ j. journal_lawful (contents j.shelf) j.shelf.within };

    fn read(&self, hour: u8, slot: u8) -> Option<Interval> {
        self.shelf.get(Key::new(hour, slot).ok()?)?
    }

    fn write(&mut self, hour: u8, slot: u8, interval: &Interval) -> Result<(), StoreFault> {
        let key = Key::new(hour, slot)?;
        self.enter(key, Some(*interval))
    }

    fn take(&mut self, hour: u8, slot: u8) -> Result<(), StoreFault> {
        let key = Key::new(hour, slot)?;
        if self.shelf.get(key).flatten().is_none() {
            return Ok(());
        }
        self.enter(key, None)
    }

    fn spent(&self) -> usize {
        self.shelf.used()
    }

    fn capacity(&self) -> usize {
        self.shelf.capacity()
    }
}
