// Writing a day file.
ghost use Rattle.std.specs.Prelude.{◌≡◌, ◌^◌, ◌<◌, ◌≤◌, [], ◌∷◌, ◌++◌, length, MatchResult, FitsSigned};
ghost use Rattle.std.specs.Int.{w32};
ghost use Rattle.std.specs.List.{All};
ghost use Rattle.day_file.specs.Encode.{row_figures};
ghost use Rattle.day_file.specs.Encode.{key as key_bytes, body as body_bytes, record_body as record_bytes, padded as padded_bytes};
ghost use Rattle.day_file.specs.Numbers.{half};
ghost use Rattle.day_file.specs.Valid.{FitRecord, FitKey, FitFigures};
ghost use Rattle.day_file.specs.Writing.{Written, Unwritten};

use crate::day::Header;
use crate::entry::{BODY, KEY};
use crate::faults::FileFault;
use crate::header::{HEADER, check_writing, file_length};
use crate::kind::Kind;
use crate::laying::{Laid, lay};
use book::Change;
use settlement::{Interval, Schedule};

// The key of a call. Where it names no slot, that byte is zero.
impl Laid<KEY> for Change {
    ghost laid = { key_bytes };

    ghost Fits = { FitKey };

    fn bytes(self) -> [u8; KEY] {
        let (kind, hour, slot) = match self {
            Change::Scheduled { hour, .. } => (Kind::Schedule, hour, 0),
            Change::Posted { hour, slot, .. } => (Kind::Posting, hour, slot),
            Change::Withdrawn { hour, slot } => (Kind::Withdrawal, hour, slot),
            Change::Read { hour, .. } => (Kind::Reading, hour, 0),
            Change::Unread { hour } => (Kind::ReadingWithdrawn, hour, 0),
        };
        [kind.into(), hour, slot, 0]
    }
}

// Signed numbers, and zeros behind them.
fn padded(numbers: &[i32]) -> [u8; BODY]
    requires { length numbers.now ≤ 12 }
    ensures laid { result ≡ padded_bytes numbers.now }
    ensures fit { All (FitsSigned w32) numbers.now }
{
    let mut body = [0; BODY];
    lay(&mut body[..4 * numbers.len()], numbers);
    body
}

// The first four bytes of a record.
fn front(seconds: u16, flags: u8) -> [u8; 4]
    ensures bytes { result ≡ half seconds ++ flags ∷ 0 ∷ [] }
    ensures fit { (seconds < 2 ^ 16) × (flags < 2 ^ 8) }
{
    let [high, low] = seconds.to_be_bytes();
    [high, low, flags, 0]
}

// An interval's record.
fn record_body(v: &Interval) -> [u8; BODY]
    ensures laid { result ≡ record_bytes v.now }
    ensures fit { FitRecord v.now }
{
    let mut record = [0; BODY];
    record[..4].copy_from_slice(&front(v.seconds, v.flags));
    let figures = [
        v.average,
        v.limits.rtd,
        v.limits.agc,
        v.limits.energy,
        v.transactions,
        v.spin,
        v.prices.energy,
        v.prices.loss,
        v.prices.congestion,
        v.reserve.east,
        v.reserve.west,
    ];
    lay(&mut record[4..], &figures);
    record
}

// A schedule row.
fn row_body(row: &Schedule) -> [u8; BODY]
    ensures laid { result ≡ padded_bytes (row_figures row.now) }
    ensures fit { All (FitsSigned w32) (row_figures row.now) }
{
    padded(&[
        row.generation,
        row.transactions,
        row.spin,
        row.prices.energy,
        row.prices.loss,
        row.prices.congestion,
    ])
}

// The body of a call: its figures. What has none is all zeros.
impl Laid<BODY> for Change {
    ghost laid = { body_bytes };

    ghost Fits = { FitFigures };

    fn bytes(self) -> [u8; BODY] {
        match self {
            Change::Scheduled { row, .. } => row_body(&row),
            Change::Posted { interval, .. } => record_body(&interval),
            Change::Read { kwh, .. } => padded(&[kwh]),
            Change::Withdrawn { .. } | Change::Unread { .. } => padded(&[]),
        }
    }
}

// Writes a day's file and answers its length. Nothing past it is touched, and nothing at all where the day is refused.
pub fn write(header: &Header, calls: &[Change], out: &mut [u8]) -> Result<usize, FileFault>
    ensures { MatchResult result (Written header.now calls.now out.old out.new) (Unwritten header.now calls.now out.old out.new) }
{
    let n = calls.len();
    check_writing(header, n, out.len())?;
    let [high, low] = (n as u16).to_be_bytes();
    let bodies = HEADER + KEY * n;
    let end = file_length(n);
    out[..HEADER].copy_from_slice(&[header.hours, header.edition, header.region, 0, high, low]);
    lay::<KEY, _>(&mut out[HEADER..bodies], calls);
    lay::<BODY, _>(&mut out[bodies..end], calls);
    Ok(end)
}
