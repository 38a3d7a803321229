// The entries of a file, each a call of the statement. A refused entry is noted on the page and does not stop the run.
// Statement and store are two parameters, as at the statement's own calls, since the store is lent and outlives the day.
ghost use Rattle.std.specs.Prelude.{◌≡◌, ◌≤◌, ◌++◌, length, OnOk};
ghost use Rattle.book.specs.declared.calls.Call.TheVariants.{Make};
ghost use Rattle.book.specs.Outcome.{view, answer, after};
ghost use Rattle.statement.specs.Accounts.{account};
ghost use Rattle.day_run.specs.Entries.{handed_up, Ran};
ghost use Rattle.day_run.specs.Pages.{refusal};

use book::Change;
use day_file::FileFault;
use listing::refused_line;
use record_store::Store;
use settlement::Edition;
use statement::Statement;
use std::alloc::AllocError;

// Makes the call of an entry; the statement's fault is handed up whole.
fn enter<E: Edition, S: Store>(
    statement: &mut Statement<E>,
    store: &mut S,
    change: &Change,
) -> Result<(), FileFault>
    ensures answer { result ≡ handed_up (answer (view (account E.Edition S.Store statement.old store.old)) (Make change.now)) }
    ensures after { account E.Edition S.Store statement.new store.new ≡ after (account E.Edition S.Store statement.old store.old) (Make change.now) }
{
    statement.make(store, change)?;
    Ok(())
}

// Makes the call of an entry, and writes its refusal, if it is one, at the end of the page.
fn note<E: Edition, S: Store>(
    statement: &mut Statement<E>,
    store: &mut S,
    entry: u16,
    change: &Change,
    page: &mut Vec<u8>,
) -> Result<(), AllocError>
    ensures after { account E.Edition S.Store statement.new store.new ≡ after (account E.Edition S.Store statement.old store.old) (Make change.now) }
    ensures page { OnOk result (page.new.items ≡ page.old.items ++ refusal entry (answer (view (account E.Edition S.Store statement.old store.old)) (Make change.now))) }
{
    match enter(statement, store, change) {
        Ok(()) => Ok(()),
        Err(fault) => page.extend_from_slice(refused_line(entry, fault).as_bytes()),
    }
}

// Makes the calls of a file in their order, and notes each that is refused.
pub fn run_entries<E: Edition, S: Store>(
    statement: &mut Statement<E>,
    store: &mut S,
    changes: &[Change],
    page: &mut Vec<u8>,
) -> Result<(), AllocError>
    requires { length changes.now ≤ 1000 }
    ensures { OnOk result (Ran (account E.Edition S.Store statement.old store.old) changes.now page.old.items (account E.Edition S.Store statement.new store.new) page.new.items) }
{
    for (number, change) in changes.iter().enumerate() {
        note(statement, store, number as u16, change, page)?;
    }
    Ok(())
}
