// The listing of a locked statement: a heading, a row for each hour for which something was sold, and the day's row.
ghost use Rattle.std.specs.Prelude.{◌≡◌, ◌+◌, ◌≤◌, ◌++◌, length, take, drop};
ghost use Rattle.listing.specs.Listing.{heading as heading_of, listing, Laid};

use crate::rows::{day_row, hour_row};
use day_file::FileFault;
use statement::Locked;

fn heading() -> &'static [u8]
    ensures { result.now ≡ heading_of }
{
    b"HOUR,STATE,DAY_AHEAD,ENERGY,LOSS,CONGESTION,SPIN,TOTAL\n"
}

// Lays bytes into memory from a place on, touches nothing else, and answers the place after them. A struct of memory
// and place would be no plainer: three calls hand the place on.
fn lay(out: &mut [u8], at: usize, bytes: &[u8]) -> usize
    requires { at + length bytes.now ≤ length out.old }
    ensures place { result ≡ at + length bytes.now }
    ensures after { out.new ≡ take at out.old ++ (bytes.now ++ drop (at + length bytes.now) out.old) }
{
    let end = at + bytes.len();
    out[at..end].copy_from_slice(bytes);
    end
}

// How long the listing of a statement is.
pub fn listing_length(statement: &Locked) -> usize
    ensures { result ≡ length (listing statement.now.sheet.table) }
{
    let table = statement.table();
    let mut needed = heading().len();
    for (hour, row) in table.rows.iter().enumerate() {
        needed += hour_row(hour, row).len();
    }
    needed + day_row(&table.day).len()
}

// Writes the listing of a statement to the front of `out`, and answers its length. Where `out` is too short, the length
// needed is told, and nothing is written.
pub fn list(statement: &Locked, out: &mut [u8]) -> Result<usize, FileFault>
    ensures { Laid (listing statement.now.sheet.table) out.old result out.new }
{
    let needed = listing_length(statement);
    if out.len() < needed {
        return Err(FileFault::Room(needed));
    }
    let table = statement.table();
    let mut at = lay(out, 0, heading());
    for (hour, row) in table.rows.iter().enumerate() {
        at = lay(out, at, hour_row(hour, row).as_bytes());
    }
    Ok(lay(out, at, day_row(&table.day).as_bytes()))
}
