// The lines of a listing below its heading.
ghost use Rattle.std.specs.Prelude.{◌≡◌};
ghost use Rattle.listing.specs.Columns.{columns as columns_of};
ghost use Rattle.listing.specs.Rows.{state_letter, hour_row, day_row};
ghost use Rattle.listing.specs.Texts.{text};

use crate::line::Line;
use book::{DayLine, Row};
use itoa::Buffer;
use settlement::{Amounts, State};

// The figures that are listed of an hour or of a day, in cents, in the order of the columns.
fn columns(ahead: &Amounts, balancing: &Amounts, spin: i64, total: i64) -> [i64; 6]
    ensures { result ≡ columns_of ahead.now balancing.now spin total }
{
    [
        ahead.total,
        balancing.energy,
        balancing.loss,
        balancing.congestion,
        spin,
        total,
    ]
}

// State and u8 are of other crates, so there can be no From between them here.
fn letter(state: State) -> u8
    ensures { result ≡ state_letter state }
{
    match state {
        State::Unsettled => b'U',
        State::Settled => b'S',
    }
}

// The line of an hour; it is left blank where nothing was sold for the hour, so that the listing has no such row. (No
// option: a blank line adds nothing to a listing, and need not be looked at.)
pub(crate) fn hour_row(hour: usize, row: &Row) -> Line
    ensures { text result ≡ hour_row hour row.now }
{
    let Some(_) = row.schedule else {
        return Line::blank();
    };
    let mut line = Line::headed(Buffer::new().format(hour).as_bytes());
    line.then_letter(letter(row.line.state));
    line.end_with(&columns(
        &row.line.ahead,
        &row.line.balancing,
        row.line.spin,
        row.line.total,
    ));
    line
}

// The line of a day.
pub(crate) fn day_row(day: &DayLine) -> Line
    ensures { text result ≡ day_row day.now }
{
    let mut line = Line::headed(b"DAY");
    line.then_number(day.settled);
    line.end_with(&columns(&day.ahead, &day.balancing, day.spin, day.total));
    line
}
