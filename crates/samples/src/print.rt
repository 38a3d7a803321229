// How the figures of an hour are printed.
use settlement::{Amounts, HourLine, IntervalFigures};
use std::io;

pub fn print_heading(rt: &HostRuntime) -> io::Result<()> {
    println!(rt;
        "  slot   adjusted      basis    balance     energy       loss congestion       spin"
    )
}

pub fn print_figures(rt: &HostRuntime, slot: u8, f: &IntervalFigures) -> io::Result<()> {
    print!(rt; "{slot:>6}")?;
    for figure in [
        f.adjusted,
        f.basis,
        f.balance,
        f.energy,
        f.loss,
        f.congestion,
        f.spin,
    ] {
        print!(rt; " {figure:>10}")?;
    }
    println!(rt; "")
}

pub fn print_amounts(rt: &HostRuntime, what: &str, amounts: &Amounts) -> io::Result<()> {
    let Amounts {
        energy,
        loss,
        congestion,
        total,
    } = *amounts;
    println!(rt;
        "  {what:<10} energy {energy}, loss {loss}, congestion {congestion}, total {total}"
    )
}

pub fn print_totals(rt: &HostRuntime, balance: i64, spin: i64, total: i64) -> io::Result<()> {
    println!(rt; "  balance {balance} kW seconds, spin {spin}, total {total}")
}

pub fn print_line(rt: &HostRuntime, line: &HourLine) -> io::Result<()> {
    println!(rt;
        "  {}, {} intervals, {} seconds",
        line.state, line.intervals, line.seconds
    )?;
    print_amounts(rt, "day-ahead", &line.ahead)?;
    print_amounts(rt, "balancing", &line.balancing)?;
    print_totals(rt, line.balance, line.spin, line.total)
}
