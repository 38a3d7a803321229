// One entry of a day file: a key of four bytes, which are kind, hour, slot and a zero, and a body of 48.
ghost use Rattle.std.specs.Prelude.{◌≡◌, ◌+◌, ◌^◌, ◌<◌, ◌≤◌, [], ◌∷◌, ◌++◌, take, drop, length, Some, MatchResult, FitsSigned, slice_index};
ghost use Rattle.std.specs.Int.{w32};
ghost use Rattle.std.specs.List.{All};
ghost use Rattle.settlement.specs.Rulings.{first, ruled};
ghost use Rattle.day_file.specs.Encode.{row_figures, record_figures};
ghost use Rattle.day_file.specs.Encode.{key as key_bytes, body as body_bytes};
ghost use Rattle.day_file.specs.Kinds.{kind_byte};
ghost use Rattle.day_file.specs.Numbers.{half, words};
ghost use Rattle.day_file.specs.Refusals.{key_zeros, key_fault, body_fault, entry_fault};
ghost use Rattle.day_file.specs.Valid.{FitRecord, Fit};

use crate::faults::FileFault;
use crate::kind::Kind;
use crate::numbers::{check_zero, part_at, word_at, words_in};
use book::Change;
use settlement::{Interval, Limits, Prices, Schedule, SpinPrices};

// The bytes of a key, and of a body.
pub(crate) const KEY: usize = 4;

pub(crate) const BODY: usize = 48;

// The schedule row in a body.
fn row_of(body: &[u8; BODY]) -> Schedule
    ensures bytes { words (row_figures result) ≡ take 24 body.now }
    ensures fit { All (FitsSigned w32) (row_figures result) }
{
    let [generation, transactions, spin, energy, loss, congestion] = words_in::<6>(&body[..24]);
    Schedule {
        generation,
        transactions,
        spin,
        prices: Prices {
            energy,
            loss,
            congestion,
        },
    }
}

// The interval's record in a body.
fn record_of(body: &[u8; BODY]) -> Interval
    ensures front { half result.seconds ++ result.flags ∷ [] ≡ take 3 body.now }
    ensures figures { words (record_figures result) ≡ take 44 (drop 4 body.now) }
    ensures fit { FitRecord result }
{
    let [
        average,
        rtd,
        agc,
        limit,
        transactions,
        spin,
        energy,
        loss,
        congestion,
        east,
        west,
    ] = words_in::<11>(&body[4..48]);
    Interval {
        seconds: u16::from_be_bytes([body[0], body[1]]),
        flags: body[2],
        average,
        limits: Limits {
            rtd,
            agc,
            energy: limit,
        },
        transactions,
        spin,
        prices: Prices {
            energy,
            loss,
            congestion,
        },
        reserve: SpinPrices { east, west },
    }
}

// Refuses a key at a place of the file: a byte that its kind has no use for, and that is not zero.
fn check_key(kind: Kind, key: &[u8; KEY], place: usize) -> Result<(), FileFault>
    requires { place + 4 < 2 ^ 64 }
    ensures { result ≡ ruled (key_zeros (kind_byte kind) place key.now) tt }
{
    match kind {
        Kind::Posting | Kind::Withdrawal => check_zero(&key[3..4], place + 3),
        // No other kind names a slot.
        _ => check_zero(&key[2..4], place + 2),
    }
}

// Refuses a body at a place of the file: a byte that its kind has no figure in, and that is not zero.
fn check_body(kind: Kind, body: &[u8; BODY], place: usize) -> Result<(), FileFault>
    requires { place + 48 < 2 ^ 64 }
    ensures { result ≡ ruled (body_fault (kind_byte kind) place body.now) tt }
{
    match kind {
        Kind::Schedule => check_zero(&body[24..48], place + 24),
        Kind::Posting => check_zero(&body[3..4], place + 3),
        Kind::Reading => check_zero(&body[4..48], place + 4),
        Kind::Withdrawal | Kind::ReadingWithdrawn => check_zero(&body[0..48], place),
    }
}

// The call of an entry, by its key and its body, which stand at these places of the file. A fault of the key comes
// before one of the body. (Bytes and their place are two parameters: a pair of them would be taken apart at each call.)
fn change_of(
    key: &[u8; KEY],
    body: &[u8; BODY],
    key_at: usize,
    body_at: usize,
) -> Result<Change, FileFault>
    requires { (key_at + 4 < 2 ^ 64) × (body_at + 48 < 2 ^ 64) }
    ensures { MatchResult result (λ c. (key_bytes c ≡ key.now) × (body_bytes c ≡ body.now) × Fit c) (λ f. first (key_fault key_at key.now) (body_fault (slice_index key.now 0) body_at body.now) ≡ Some f) }
{
    let [kind, hour, slot, _] = *key;
    let Ok(kind) = Kind::try_from(kind) else {
        return Err(FileFault::Kind(key_at));
    };
    check_key(kind, key, key_at).and(check_body(kind, body, body_at))?;
    match kind {
        Kind::Schedule => Ok(Change::Scheduled {
            hour,
            row: row_of(body),
        }),
        Kind::Posting => Ok(Change::Posted {
            hour,
            slot,
            interval: record_of(body),
        }),
        Kind::Withdrawal => Ok(Change::Withdrawn { hour, slot }),
        Kind::Reading => Ok(Change::Read {
            hour,
            kwh: word_at(body, 0),
        }),
        Kind::ReadingWithdrawn => Ok(Change::Unread { hour }),
    }
}

// The call of the entry whose key and body stand at these places of the file.
pub(crate) fn entry_at(bytes: &[u8], key_at: usize, body_at: usize) -> Result<Change, FileFault>
    requires key { key_at + 4 ≤ length bytes.now }
    requires body { body_at + 48 ≤ length bytes.now }
    ensures { MatchResult result (λ c. (key_bytes c ≡ take 4 (drop key_at bytes.now)) × (body_bytes c ≡ take 48 (drop body_at bytes.now)) × Fit c) (λ f. entry_fault bytes.now key_at body_at ≡ Some f) }
{
    change_of(
        part_at(bytes, key_at),
        part_at(bytes, body_at),
        key_at,
        body_at,
    )
}
