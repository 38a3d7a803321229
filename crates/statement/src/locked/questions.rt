// The questions to a locked statement: they need no store, and no edition.
ghost use Rattle.std.specs.Prelude.{◌≡◌, Ok};
ghost use Rattle.settlement.specs.Editions.{Terms, Lawful};
ghost use Rattle.record_store.specs.Meaning.{Meaning};
ghost use Rattle.book.specs.declared.calls.Answer.TheVariants.{Line, Day};
ghost use Rattle.book.specs.declared.calls.Call.TheVariants.{AskHour, AskDay};
ghost use Rattle.book.specs.Outcome.{as_answer};
ghost use Rattle.book.specs.Gate.{Gated};
ghost use Rattle.statement.specs.Accounts.{closed};

use crate::locked::Locked;
use book::{DayLine, Fault, Table};
use settlement::HourLine;

impl Locked {
    // The line of an hour.
    pub fn hour_line(&self, hour: u8) -> Result<HourLine, Fault>
        ensures { (e : Terms) (m : Meaning) → Lawful e → Gated (closed e self.now m) (AskHour hour) (as_answer Line result) (closed e self.now m) }
    {
        Ok(self.sheet.row(hour, 0)?.line)
    }

    // The line of the day.
    pub fn day_line(&self) -> DayLine
        ensures { (e : Terms) (m : Meaning) → Lawful e → Gated (closed e self.now m) AskDay (Ok (Day result)) (closed e self.now m) }
    {
        self.sheet.table.day
    }

    // The rows and the day line, to read only.
    pub fn table(&self) -> &Table
        ensures { result.now ≡ self.now.sheet.table }
    {
        &self.sheet.table
    }
}
