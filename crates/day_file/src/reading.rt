// Reading a day file.
ghost use Rattle.std.specs.Prelude.{◌≡◌, ◌+◌, ◌*◌, ◌≤◌, List, length, None, MatchResult};
ghost use Rattle.day_file.specs.Reading.{FileOf, Told, Exact};
ghost use Rattle.day_file.specs.Refusals.{opening_fault, header_in, count_in};

use crate::day::{Day, Header, ReadError};
use crate::entry::{BODY, KEY, entry_at};
use crate::header::{HEADER, open};
use book::Change;
use std::alloc::Global;

// The calls of a file whose header and length are right. Memory for all of them is asked for once, before the first is
// read.
fn read_calls(heap: Global, bytes: &[u8], entries: usize) -> Result<Vec<Change>, ReadError>
    requires opened { opening_fault bytes.now ≡ None }
    requires count { entries ≡ count_in bytes.now }
    requires few { entries ≤ 1000 }
    requires long { length bytes.now ≡ 6 + 52 * entries }
    ensures { MatchResult result (λ v. FileOf (header_in bytes.now) v.items bytes.now) (λ e. Told e bytes.now) }
{
    let mut calls = Vec::with_capacity(heap, entries)?;
    let bodies = HEADER + KEY * entries;
    // A fault tells its place in the file, so the places are counted.
    for i in 0..entries {
        let call = entry_at(bytes, HEADER + KEY * i, bodies + BODY * i)?;
        calls.push(call)?;
    }
    Ok(calls)
}

// The day that a file has.
fn read_day(heap: Global, bytes: &[u8]) -> Result<Day, ReadError>
    ensures { MatchResult result (λ d. FileOf d.header d.calls.items bytes.now) (λ e. Told e bytes.now) }
{
    let (header, entries) = open(bytes)?;
    let calls = read_calls(heap, bytes, entries)?;
    Ok(Day { header, calls })
}

// Reads a day's file. What is read is written as the same bytes, and whatever a valid day is written as is read as that
// day. The first thing that is wrong is told, with its place.
pub fn read(heap: Global, bytes: &[u8]) -> Result<Day, ReadError>
    ensures cases { MatchResult result (λ d. FileOf d.header d.calls.items bytes.now) (λ e. Told e bytes.now) }
    ensures back { (h : Header) (cs : List Change) → FileOf h cs bytes.now → MatchResult result (λ d. (d.header ≡ h) × (d.calls.items ≡ cs)) (λ e. e ≡ ReadError.NoMemory) }
    ensures exact { Exact bytes.now }
{
    read_day(heap, bytes)
}
