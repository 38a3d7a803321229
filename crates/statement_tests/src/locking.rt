// A day from its opening to its lock: the edits of this function show what a locked statement does not do.
use book::{DayLine, Fault};
use record_store::Store;
use samples::SOLD;
use settlement::Newer;
use statement::Statement;

// The line of a day for which one row was scheduled, once it is locked.
pub fn closing_line<S: Store>(store: &mut S) -> Result<DayLine, Fault> {
    let mut statement = Statement::open(Newer, 24, 0, store)?;
    statement.schedule(store, 3, &SOLD)?;
    let locked = statement.lock();
    Ok(locked.day_line())
}
