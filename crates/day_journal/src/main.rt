// Reads a day file from standard input, keeps its records in a journal, and prints what is refused and the listing.
#![tactic(auto)]

use day_run::journal_day;
use terminal::{input, output};

fn main(rt: HostRuntime) -> anyhow::Result<()> {
    let bytes = input(&rt)?;
    output(&rt, journal_day(rt.alloc(), bytes.as_slice()))
}
