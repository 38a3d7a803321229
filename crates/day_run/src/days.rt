// The page of a day file over a new store of each kind, as the programs print it.
ghost use Rattle.std.specs.Prelude.{IfOk, vec_items, MatchResult};
ghost use Rattle.day_run.specs.Pages.{FirstPage, NoFirstPage};
ghost use Rattle.day_run.specs.Printouts.{Shows, Printed};

use crate::pages::day_page;
use crate::printout::Printout;
use day_file::ReadError;
use listing::file_line;
use record_store::{Journal, Place, Pool};
use std::alloc::{AllocError, Global};

// The places of each store: a record for each slot of the longest day, and an entry for each call of the longest file.
const POOL_PLACES: usize = 600;

const JOURNAL_PLACES: usize = 1_000;

// The page of a day file over a pool. (One function generic over the kind of store would need a type with a lifetime
// for its argument, since a store borrows its places.)
fn pool_page(heap: Global, bytes: &[u8]) -> Result<Vec<u8>, ReadError>
    ensures { MatchResult result (λ page. FirstPage 600 0 bytes.now page.items) (NoFirstPage bytes.now) }
{
    let mut places = Vec::from_elem(heap, Place::default(), POOL_PLACES)?;
    day_page(heap, bytes, &mut Pool::over(places.as_mut_slice()))
}

// The page of a day file over a journal.
fn journal_page(heap: Global, bytes: &[u8]) -> Result<Vec<u8>, ReadError>
    ensures { MatchResult result (λ page. FirstPage 1000 1 bytes.now page.items) (NoFirstPage bytes.now) }
{
    let mut places = Vec::from_elem(heap, Place::default(), JOURNAL_PLACES)?;
    day_page(heap, bytes, &mut Journal::over(places.as_mut_slice()))
}

// The page as it is, or the line of a file that is refused.
fn shown(page: Result<Vec<u8>, ReadError>) -> Result<Printout, AllocError>
    ensures { IfOk result (Shows vec_items page) }
{
    match page {
        Ok(page) => Ok(Printout::Page(page)),
        Err(ReadError::Refused(fault)) => Ok(Printout::Refused(file_line(fault))),
        Err(ReadError::NoMemory) => Err(AllocError),
    }
}

// What is printed for a day file over a pool of 600 places.
pub fn pool_day(heap: Global, bytes: &[u8]) -> Result<Printout, AllocError>
    ensures { IfOk result (Printed 600 0 bytes.now) }
{
    shown(pool_page(heap, bytes))
}

// What is printed for a day file over a journal of 1,000 places.
pub fn journal_day(heap: Global, bytes: &[u8]) -> Result<Printout, AllocError>
    ensures { IfOk result (Printed 1000 1 bytes.now) }
{
    shown(journal_page(heap, bytes))
}
