// The changes to a day. A refused change leaves the statement and the store as they were.
ghost use Rattle.std.specs.Prelude.{◌≡◌, OnErr};
ghost use Rattle.book.specs.declared.calls.Call.TheVariants.{Make};
ghost use Rattle.book.specs.declared.calls.Change.TheVariants.{Scheduled, Posted, Withdrawn, Read, Unread};
ghost use Rattle.book.specs.Outcome.{done};
ghost use Rattle.book.specs.Gate.{Gated};
ghost use Rattle.statement.specs.Accounts.{account};

use crate::statement::Statement;
use crate::statement::rows::placed;
use book::Fault;
use record_store::Store;
use settlement::{Edition, Interval, Schedule};

// Each has its own three or four lines: one function over a closure would need a contract longer than what it saves.
impl<E: Edition> Statement<E> {
    // A schedule row for an hour, in the place of a former one.
    pub fn schedule<S: Store>(&mut self, store: &S, hour: u8, row: &Schedule) -> Result<(), Fault>
        ensures gated { Gated (account E.Edition S.Store self.old store.now) (Make (Scheduled hour row.now)) (done result) (account E.Edition S.Store self.new store.now) }
        ensures kept { OnErr result (self.new ≡ self.old) }
    {
        let mut standing = self.load(store, hour, 0)?;
        placed(standing.schedule(row), hour, 0)?;
        self.settle(hour, &standing);
        Ok(())
    }

    // A record for a slot, in the place of what stood there.
    pub fn post<S: Store>(
        &mut self,
        store: &mut S,
        hour: u8,
        slot: u8,
        interval: &Interval,
    ) -> Result<(), Fault>
        ensures gated { Gated (account E.Edition S.Store self.old store.old) (Make (Posted hour slot interval.now)) (done result) (account E.Edition S.Store self.new store.new) }
        ensures kept { OnErr result ((self.new ≡ self.old) × (store.new ≡ store.old)) }
    {
        let mut standing = self.load(store, hour, slot)?;
        placed(standing.post(slot, interval), hour, slot)?;
        store.write(hour, slot, interval)?;
        self.settle(hour, &standing);
        Ok(())
    }

    // No record for a slot.
    pub fn withdraw<S: Store>(&mut self, store: &mut S, hour: u8, slot: u8) -> Result<(), Fault>
        ensures gated { Gated (account E.Edition S.Store self.old store.old) (Make (Withdrawn hour slot)) (done result) (account E.Edition S.Store self.new store.new) }
        ensures kept { OnErr result ((self.new ≡ self.old) × (store.new ≡ store.old)) }
    {
        let mut standing = self.load(store, hour, slot)?;
        placed(standing.withdraw(slot), hour, slot)?;
        store.take(hour, slot)?;
        self.settle(hour, &standing);
        Ok(())
    }

    // A reading for an hour, in the place of a former one.
    pub fn read<S: Store>(&mut self, store: &S, hour: u8, kwh: i32) -> Result<(), Fault>
        ensures gated { Gated (account E.Edition S.Store self.old store.now) (Make (Read hour kwh)) (done result) (account E.Edition S.Store self.new store.now) }
        ensures kept { OnErr result (self.new ≡ self.old) }
    {
        let mut standing = self.load(store, hour, 0)?;
        placed(standing.read(kwh), hour, 0)?;
        self.settle(hour, &standing);
        Ok(())
    }

    // No reading for an hour.
    pub fn unread<S: Store>(&mut self, store: &S, hour: u8) -> Result<(), Fault>
        ensures gated { Gated (account E.Edition S.Store self.old store.now) (Make (Unread hour)) (done result) (account E.Edition S.Store self.new store.now) }
        ensures kept { OnErr result (self.new ≡ self.old) }
    {
        let mut standing = self.load(store, hour, 0)?;
        placed(standing.unread(), hour, 0)?;
        self.settle(hour, &standing);
        Ok(())
    }
}
