// Reads a day file from standard input, keeps its records in a pool, and prints what is refused and the listing.
#![tactic(auto)]

use day_run::pool_day;
use terminal::{input, output};

fn main(rt: HostRuntime) -> anyhow::Result<()> {
    let bytes = input(&rt)?;
    output(&rt, pool_day(rt.alloc(), bytes.as_slice()))
}
