// The questions to a day.
ghost use Rattle.std.specs.Prelude.{◌≡◌, Ok};
ghost use Rattle.record_store.specs.Meaning.{Meaning};
ghost use Rattle.book.specs.declared.calls.Answer.TheVariants.{Line, Figures, Day};
ghost use Rattle.book.specs.declared.calls.Call.TheVariants.{AskHour, AskInterval, AskDay};
ghost use Rattle.book.specs.Outcome.{as_answer};
ghost use Rattle.book.specs.Gate.{Gated};
ghost use Rattle.statement.specs.Accounts.{account, kept_in};

use crate::statement::Statement;
use crate::statement::rows::placed;
use book::{DayLine, Fault};
use record_store::Store;
use settlement::{Edition, HourLine, IntervalFigures};

impl<E: Edition> Statement<E> {
    // The line of an hour.
    pub fn hour_line(&self, hour: u8) -> Result<HourLine, Fault>
        ensures { (m : Meaning) → Gated (kept_in E.Edition self.now m) (AskHour hour) (as_answer Line result) (kept_in E.Edition self.now m) }
    {
        Ok(self.sheet.row(hour, 0)?.line)
    }

    // The figures of the interval in a slot.
    pub fn figures<S: Store>(&self, store: &S, hour: u8, slot: u8) -> Result<IntervalFigures, Fault>
        ensures { Gated (account E.Edition S.Store self.now store.now) (AskInterval hour slot) (as_answer Figures result) (account E.Edition S.Store self.now store.now) }
    {
        let standing = self.load(store, hour, slot)?;
        placed(
            standing.figures(&self.edition, self.sheet.table.region, slot),
            hour,
            slot,
        )
    }

    // The line of the day. A locked statement reads the same field, under a contract of its own.
    pub fn day_line(&self) -> DayLine
        ensures { (m : Meaning) → Gated (kept_in E.Edition self.now m) AskDay (Ok (Day result)) (kept_in E.Edition self.now m) }
    {
        self.sheet.table.day
    }
}
