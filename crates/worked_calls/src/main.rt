// Settles two hours of a station under both editions, and a third while its figures are corrected, and prints what they
// come to, in cents. Each is a list of calls, played on a statement that keeps its records in a pool.
#![tactic(auto)]

mod calls;
mod print;

use book::Entry;
use calls::{Log, corrected_log, hour_log};
use print::{print_entry, print_refusal, print_told};
use record_store::{Place, Pool};
use samples::{FIVE_MINUTES, OPERATORS_HOUR, SHARED_HOUR, print_heading};
use settlement::{Edition, Newer, Older, Standing, worked_figures};
use statement::Statement;
use std::io;

// Opens a day over a pool and plays the calls; says so where the day could not be opened.
fn play<E: Edition + Drop>(
    rt: &HostRuntime,
    edition: E,
    region: u8,
    log: &mut [Entry],
) -> io::Result<()> {
    let place = Place {
        hour: 0,
        slot: 0,
        content: FIVE_MINUTES,
    };
    let mut places = [place; 24];
    let mut pool = Pool::over(&mut places);
    match Statement::play(edition, 24, region, &mut pool, log) {
        Ok(_) => Ok(()),
        Err(fault) => print_refusal(rt, fault),
    }
}

fn print_edition<E: Edition + Drop>(
    rt: &HostRuntime,
    name: &str,
    edition: E,
    region: u8,
    standing: &Standing,
) -> io::Result<()> {
    let Log { mut entries } = hour_log(rt.alloc(), standing)?;
    play(rt, edition, region, entries.as_mut_slice())?;
    println!(rt; "{name} edition")?;
    print_heading(rt)?;
    for entry in entries.as_slice() {
        print_told(rt, entry)?;
    }
    Ok(())
}

fn print_hour(rt: &HostRuntime, title: &str, standing: Standing, region: u8) -> io::Result<()> {
    println!(rt; "{title}")?;
    print_edition(rt, "newer", Newer, region, &standing)?;
    print_edition(rt, "older", Older, region, &standing)
}

fn print_corrections(rt: &HostRuntime) -> io::Result<()> {
    println!(rt; "An hour corrected call by call, the newer edition, East")?;
    let Log { mut entries } = corrected_log(rt.alloc())?;
    play(rt, Newer, 0, entries.as_mut_slice())?;
    for entry in entries.as_slice() {
        print_entry(rt, entry)?;
    }
    Ok(())
}

fn main(rt: HostRuntime) -> io::Result<()> {
    worked_figures();
    print_hour(
        &rt,
        "50 MW sold the day before, 65 MW metered, twelve intervals, East",
        OPERATORS_HOUR,
        0,
    )?;
    println!(rt; "")?;
    print_hour(
        &rt,
        "An interval of each scenario, a reading of 25,000 kWh, negative prices, West",
        SHARED_HOUR,
        1,
    )?;
    println!(rt; "")?;
    print_corrections(&rt)
}
