// Calls as they stand in a log, one by one and in a list.
ghost use Rattle.std.specs.Prelude.{◌≡◌, OnErr};
ghost use Rattle.book.specs.declared.calls.Call.TheVariants.{Make};
ghost use Rattle.book.specs.Outcome.{done};
ghost use Rattle.book.specs.Gate.{Gated, GatedAll};
ghost use Rattle.statement.specs.Accounts.{account};
ghost use Rattle.statement.specs.Logs.{calls, answers};

use crate::statement::Statement;
use book::{Answer, Call, Change, Entry, Fault};
use record_store::Store;
use settlement::Edition;

impl<E: Edition> Statement<E> {
    // Makes a change.
    pub fn make<S: Store>(&mut self, store: &mut S, change: &Change) -> Result<(), Fault>
        ensures gated { Gated (account E.Edition S.Store self.old store.old) (Make change.now) (done result) (account E.Edition S.Store self.new store.new) }
        ensures kept { OnErr result ((self.new ≡ self.old) × (store.new ≡ store.old)) }
    {
        match change {
            Change::Scheduled { hour, row } => self.schedule(store, *hour, row),
            Change::Posted {
                hour,
                slot,
                interval,
            } => self.post(store, *hour, *slot, interval),
            Change::Withdrawn { hour, slot } => self.withdraw(store, *hour, *slot),
            Change::Read { hour, kwh } => self.read(store, *hour, *kwh),
            Change::Unread { hour } => self.unread(store, *hour),
        }
    }

    // Makes a call.
    pub fn call<S: Store>(&mut self, store: &mut S, call: &Call) -> Result<Answer, Fault>
        ensures gated { Gated (account E.Edition S.Store self.old store.old) call.now result (account E.Edition S.Store self.new store.new) }
        ensures kept { OnErr result ((self.new ≡ self.old) × (store.new ≡ store.old)) }
    {
        match call {
            Call::Make(change) => {
                self.make(store, change)?;
                Ok(Answer::Done)
            }
            Call::AskHour { hour } => Ok(Answer::Line(self.hour_line(*hour)?)),
            Call::AskInterval { hour, slot } => Ok(Answer::Figures(self.figures(
                store, *hour, *slot,
            )?)),
            Call::AskDay => Ok(Answer::Day(self.day_line())),
        }
    }

    // Makes the calls of a log, and notes the answer of each; a refusal does not stop the run.
    pub fn run<S: Store>(&mut self, store: &mut S, log: &mut [Entry])
        ensures calls { calls log.new ≡ calls log.old }
        ensures gated { GatedAll (account E.Edition S.Store self.old store.old) (calls log.old) (answers log.new) (account E.Edition S.Store self.new store.new) }
    {
        for entry in log {
            entry.answer = self.call(store, &entry.call);
        }
    }
}
