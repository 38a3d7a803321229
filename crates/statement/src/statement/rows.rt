// An hour as it stands, loaded from its row and the store; and its row rewritten.
ghost use Rattle.std.specs.Prelude.{◌≡◌, ◌<◌, Some, None, MatchResult};
ghost use Rattle.book.specs.Lines.{row_of, rewritten};
ghost use Rattle.book.specs.Outcome.{at_place, outside, unfit, view, standing as standing_of};
ghost use Rattle.statement.specs.Accounts.{account};

use crate::statement::Statement;
use book::{Fault, Row};
use record_store::Store;
use settlement::{Edition, Hour, Refusal, Standing};

// What an hour answers to a call. An hour does not know its number, so the call's hour and slot are put into its fault
// here; they go as two bytes, since nothing else takes them together.
pub(super) fn placed<T>(answer: Result<T, Refusal>, hour: u8, slot: u8) -> Result<T, Fault>
    ensures { result ≡ at_place hour slot answer }
{
    answer.map_err(|refusal| Fault::Refused {
        refusal,
        hour,
        slot,
    })
}

impl<E: Edition> Statement<E> {
    // The hour as it stands, if it is one of the day and its records break no limit.
    pub(super) fn load<S: Store>(&self, store: &S, hour: u8, slot: u8) -> Result<Hour, Fault>
        ensures { MatchResult result (λ h. (unfit (view (account E.Edition S.Store self.now store.now)) hour slot ≡ None) × (h.standing ≡ standing_of self.now.sheet.table (S.Store.means store.now) hour) × (hour < 25)) (λ f. unfit (view (account E.Edition S.Store self.now store.now)) hour slot ≡ Some f) }
    {
        let row = self.sheet.row(hour, slot)?;
        let standing = Standing {
            schedule: row.schedule,
            reading: row.reading,
            records: store.hour(hour),
        };
        Hour::new(standing).map_err(|_| Fault::BadRecords { hour, slot })
    }

    // The row of an hour is worked out from what stands, and the day's line with it; no other row is touched.
    pub(super) fn settle(&mut self, hour: u8, standing: &Hour)
        requires { hour < 25 }
        ensures edition { self.new.edition ≡ self.old.edition }
        ensures table { self.new.sheet.table ≡ rewritten self.old.sheet.table hour (row_of (E.Edition.terms self.old.edition) self.old.sheet.table.region standing.now.standing) }
    {
        let row = Row {
            schedule: standing.scheduled(),
            reading: standing.reading(),
            line: standing.line(&self.edition, self.sheet.table.region),
        };
        self.sheet.rewrite(hour, row);
    }
}
