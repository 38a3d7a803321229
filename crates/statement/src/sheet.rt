// The table of a day, whose line is always the sum of its rows.
ghost use Rattle.std.specs.Prelude.{◌≡◌, ℕ, ◌<◌, ◌≤◌, true, false, length, is_some, MatchResult};
ghost use Rattle.book.specs.declared.faults.Fault.TheVariants.{NoHour};
ghost use Rattle.book.specs.Lines.{rows_of, table_of, no_row, row_at, row_refusal, rewritten};
ghost use Rattle.statement.specs.Days.{is_day_part};

use crate::day::added_up;
use book::{Fault, Row, Table};
use settlement::Region;

// What a statement keeps, open or locked. Its day line is the sum of its rows,
// and no hour holds more than 3,600 seconds.
#[derive(Drop)]
pub(crate) struct Sheet {
    pub table: Table,
    ghost fit: { table.hours ≤ 25 },
    ghost rows: { length table.rows ≡ 25 },
    ghost within: { (h : ℕ) → is_some (row_refusal (row_at table h)) ≡ false },
    ghost short: { (h : ℕ) → (row_at table h).line.seconds ≤ 3600 },
    ghost small: { (h : ℕ) → is_day_part (row_at table h).line ≡ true },
    ghost added: { table ≡ table_of table.hours table.region table.rows },
}

// As many rows as the longest day has hours, and nothing in them.
fn blank_rows() -> [Row; 25]
    ensures { result ≡ rows_of (λ _. no_row) }
{
    [Row::default(); 25]
}

impl Sheet {
    // That of a day for which nothing stands.
    pub fn blank(hours: u8, region: Region) -> Sheet
        requires { hours ≤ 25 }
        ensures { result.table ≡ table_of hours region (rows_of (λ _. no_row)) }
    {
        let rows = blank_rows();
        Sheet {
            table: Table {
                hours,
                region,
                rows,
                day: added_up(&rows),
            },
        }
    }

    // The row of an hour, if it is one of the day; a fault has the slot that the call named.
    pub fn row(&self, hour: u8, slot: u8) -> Result<&Row, Fault>
        ensures { MatchResult result (λ r. (hour < self.now.table.hours) × (r.now ≡ row_at self.now.table hour)) (λ f. (self.now.table.hours ≤ hour) × (f ≡ NoHour hour slot)) }
    {
        if hour >= self.table.hours {
            return Err(Fault::NoHour { hour, slot });
        }
        Ok(&self.table.rows[hour as usize])
    }

    // Another row for an hour, and the day's line with it; no other row is touched.
    pub fn rewrite(&mut self, hour: u8, row: Row)
        requires hour { hour < 25 }
        requires within { is_some (row_refusal row) ≡ false }
        requires small { is_day_part row.line ≡ true }
        ensures { self.new.table ≡ rewritten self.old.table hour row }
    {
        self.table.rows[hour as usize] = row;
        self.table.day = added_up(&self.table.rows);
    }
}
