// What is printed of calls and their answers. The words are this program's own, so calls and faults have none to display.
use book::{Answer, Call, Change, DayLine, Entry, Fault};
use samples::{print_amounts, print_figures, print_line, print_totals};
use std::io;

fn print_day(rt: &HostRuntime, day: &DayLine) -> io::Result<()> {
    println!(rt;
        "  {} settled, {} intervals, {} seconds",
        day.settled, day.intervals, day.seconds
    )?;
    print_amounts(rt, "day-ahead", &day.ahead)?;
    print_amounts(rt, "balancing", &day.balancing)?;
    print_totals(rt, day.balance, day.spin, day.total)
}

// The figures and lines that questions are answered with.
pub fn print_told(rt: &HostRuntime, entry: &Entry) -> io::Result<()> {
    match (entry.call, entry.answer) {
        (Call::AskInterval { slot, .. }, Ok(Answer::Figures(figures))) => {
            print_figures(rt, slot, &figures)
        }
        (_, Ok(Answer::Line(line))) => print_line(rt, &line),
        (_, Ok(Answer::Day(day))) => print_day(rt, &day),
        _ => Ok(()),
    }
}

pub fn print_refusal(rt: &HostRuntime, fault: Fault) -> io::Result<()> {
    let report = fault.report();
    println!(rt;
        "refused by the {}: {}, hour {}, slot {}",
        report.layer, report.number, report.hour, report.slot
    )
}

fn print_change(rt: &HostRuntime, change: &Change) -> io::Result<()> {
    match change {
        Change::Scheduled { hour, .. } => print!(rt; "schedule hour {hour}: "),
        Change::Posted { hour, slot, .. } => print!(rt; "post hour {hour}, slot {slot}: "),
        Change::Withdrawn { hour, slot } => print!(rt; "withdraw hour {hour}, slot {slot}: "),
        Change::Read { hour, kwh } => print!(rt; "read hour {hour}, {kwh} kWh: "),
        Change::Unread { hour } => print!(rt; "withdraw the reading of hour {hour}: "),
    }
}

// A call in words, and its answer.
pub fn print_entry(rt: &HostRuntime, entry: &Entry) -> io::Result<()> {
    match &entry.call {
        Call::Make(change) => print_change(rt, change)?,
        Call::AskHour { hour } => print!(rt; "ask for hour {hour}: ")?,
        Call::AskInterval { hour, slot } => print!(rt; "ask for hour {hour}, slot {slot}: ")?,
        Call::AskDay => print!(rt; "ask for the day: ")?,
    }
    match entry.answer {
        Ok(Answer::Done) => println!(rt; "done"),
        Ok(_) => {
            println!(rt; "")?;
            print_told(rt, entry)
        }
        Err(fault) => print_refusal(rt, fault),
    }
}
