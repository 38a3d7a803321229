// The page of a day file: the refused entries and the listing.
ghost use Rattle.std.specs.Prelude.{◌≡◌, ◌≤◌, [], ◌++◌, length, MatchResult, OnOk};
ghost use Rattle.book.specs.Gate.{Opened};
ghost use Rattle.statement.specs.Accounts.{account};
ghost use Rattle.listing.specs.Listing.{listing};
ghost use Rattle.day_run.specs.Pages.{Shown, NotShown, Unopened, PageOf, NoPage};

use crate::entries::run_entries;
use book::Change;
use day_file::{FileFault, Header, ReadError, read};
use listing::{list, listing_length};
use record_store::Store;
use settlement::{Edition, Newer, Older};
use statement::{Locked, Statement};
use std::alloc::{AllocError, Global};

// Writes the listing of a statement at the end of the page.
fn list_onto(heap: Global, statement: &Locked, page: &mut Vec<u8>) -> Result<(), AllocError>
    ensures { OnOk result (page.new.items ≡ page.old.items ++ listing statement.now.sheet.table) }
{
    let mut text = Vec::from_elem(heap, 0u8, listing_length(statement))?;
    let _ = list(statement, text.as_mut_slice());
    page.extend_from_slice(text.as_slice())
}

// Opens the day that a header describes; the statement's fault is handed up whole.
fn open<E: Edition + Drop, S: Store>(
    edition: E,
    header: &Header,
    store: &S,
) -> Result<Statement<E>, FileFault>
    ensures { MatchResult result (λ s. Opened (E.Edition.terms edition) header.now.hours header.now.region (S.Store.means store.now) [] [] (account E.Edition S.Store s store.now)) (λ fault. Unopened header.now (S.Store.means store.now) fault) }
{
    let statement = Statement::open(edition, header.hours, header.region, store)?;
    Ok(statement)
}

// The page of a day under an edition: opened, its calls made, locked and listed.
fn page_under<E: Edition + Drop, S: Store>(
    heap: Global,
    edition: E,
    header: &Header,
    changes: &[Change],
    store: &mut S,
) -> Result<Vec<u8>, ReadError>
    requires { length changes.now ≤ 1000 }
    ensures { MatchResult result (λ page. Shown (E.Edition.terms edition) header.now (S.Store.means store.old) (S.Store.means store.new) changes.now page.items) (NotShown header.now (S.Store.means store.old) (S.Store.means store.new)) }
{
    let mut statement = open(edition, header, store)?;
    let mut page = Vec::new(heap);
    run_entries(&mut statement, store, changes, &mut page)?;
    list_onto(heap, &statement.lock(), &mut page)?;
    Ok(page)
}

// What is printed for a day file, over a store in which nothing stands: the refused entries, and the listing.
pub fn day_page<S: Store>(heap: Global, bytes: &[u8], store: &mut S) -> Result<Vec<u8>, ReadError>
    ensures { MatchResult result (λ page. PageOf (S.Store.means store.old) (S.Store.means store.new) bytes.now page.items) (NoPage (S.Store.means store.old) (S.Store.means store.new) bytes.now) }
{
    let day = read(heap, bytes)?;
    // A header has bytes, as the file does; of those that were read this one is 0 or 1.
    match day.header.edition {
        0 => page_under(heap, Older, &day.header, day.calls.as_slice(), store),
        _ => page_under(heap, Newer, &day.header, day.calls.as_slice(), store),
    }
}
