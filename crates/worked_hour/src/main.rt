// Settles two hours of a station under both editions and prints what they come to, in cents.
#![tactic(auto)]

use samples::{OPERATORS_HOUR, SHARED_HOUR, print_figures, print_heading, print_line};
use settlement::{Edition, Hour, Newer, Older, Region, Standing, worked_figures};
use std::io;

fn print_edition<E: Edition>(
    rt: &HostRuntime,
    name: &str,
    edition: &E,
    hour: &Hour,
    region: Region,
) -> io::Result<()> {
    println!(rt; "{name} edition")?;
    print_heading(rt)?;
    for slot in 0..24u8 {
        if let Ok(figures) = hour.figures(edition, region, slot) {
            print_figures(rt, slot, &figures)?;
        }
    }
    print_line(rt, &hour.line(edition, region))
}

fn print_hour(rt: &HostRuntime, title: &str, standing: Standing, region: Region) -> io::Result<()> {
    println!(rt; "{title}")?;
    match Hour::new(standing) {
        Ok(hour) => {
            print_edition(rt, "newer", &Newer, &hour, region)?;
            print_edition(rt, "older", &Older, &hour, region)
        }
        Err(refusal) => println!(rt; "refused: {}", refusal.number()),
    }
}

fn main(rt: HostRuntime) -> io::Result<()> {
    worked_figures();
    print_hour(
        &rt,
        "50 MW sold the day before, 65 MW metered, twelve intervals, East",
        OPERATORS_HOUR,
        Region::East,
    )?;
    println!(rt; "")?;
    print_hour(
        &rt,
        "An interval of each scenario, a reading of 25,000 kWh, negative prices, West",
        SHARED_HOUR,
        Region::West,
    )
}
