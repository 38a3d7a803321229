// Opening a day over a store, and playing a list of calls from its opening.
ghost use Rattle.std.specs.Prelude.{◌≡◌, [], not, is_some, Some, None, ◌==◌, MatchResult};
ghost use Rattle.std.specs.List.{list_any};
ghost use Rattle.record_store.specs.Meaning.{hour_records};
ghost use Rattle.book.specs.Gate.{count, opening_refusal, Opened};
ghost use Rattle.statement.specs.Accounts.{account};
ghost use Rattle.statement.specs.Logs.{calls, answers};

use crate::sheet::Sheet;
use crate::statement::Statement;
use book::{Entry, Fault};
use record_store::Store;
use settlement::{Edition, Region};

// Whether any record stands for an hour.
fn any_stands<S: Store>(store: &S, hour: u8) -> bool
    ensures { result ≡ list_any is_some (hour_records ((S.Store.means store.now).standing hour)) }
{
    store.hour(hour).iter().any(|record| record.is_some())
}

// Whether any record stands in a store.
fn is_occupied<S: Store>(store: &S) -> bool
    ensures { result ≡ not (count (S.Store.means store.now).standing == 0) }
{
    // Not `any`: a closure that calls a store through its trait leaves the proof knowing nothing of the answer.
    for hour in 0..25u8 {
        if any_stands(store, hour) {
            return true;
        }
    }
    false
}

impl<E: Edition> Statement<E> {
    // A day of that many hours in the region of that number, over a store in which nothing stands.
    pub fn open<S: Store>(
        edition: E,
        hours: u8,
        region: u8,
        store: &S,
    ) -> Result<Statement<E>, Fault>
    where
        E: Drop,
        ensures { MatchResult result (λ s. Opened (E.Edition.terms edition) hours region (S.Store.means store.now) [] [] (account E.Edition S.Store s store.now)) (λ f. opening_refusal hours region (S.Store.means store.now) ≡ Some f) }
    {
        if !(23..=25).contains(&hours) {
            return Err(Fault::BadHours);
        }
        let region = Region::try_from(region)?;
        if is_occupied(store) {
            return Err(Fault::Occupied);
        }
        Ok(Statement {
            edition,
            sheet: Sheet::blank(hours, region),
        })
    }

    // Opens a day and makes the calls of a log, noting the answer of each.
    // A refused opening leaves log and store as they were.
    pub fn play<S: Store>(
        edition: E,
        hours: u8,
        region: u8,
        store: &mut S,
        log: &mut [Entry],
    ) -> Result<Statement<E>, Fault>
    where
        E: Drop,
        ensures calls { calls log.new ≡ calls log.old }
        ensures opened { MatchResult result (λ s. Opened (E.Edition.terms edition) hours region (S.Store.means store.old) (calls log.old) (answers log.new) (account E.Edition S.Store s store.new)) (λ f. (opening_refusal hours region (S.Store.means store.old) ≡ Some f) × (log.new ≡ log.old) × (S.Store.means store.new ≡ S.Store.means store.old)) }
    {
        let mut statement = Statement::open(edition, hours, region, store)?;
        statement.run(store, log);
        Ok(statement)
    }
}
