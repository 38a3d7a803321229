// The header of a day file: hours, edition and region, a byte each, a zero byte, and the number of entries in two bytes.
ghost use Rattle.std.specs.Prelude.{◌≡◌, ◌+◌, ◌*◌, ◌≤◌};
ghost use Rattle.settlement.specs.Rulings.{ruled};
ghost use Rattle.day_file.specs.Refusals.{header_fault, opening_fault, write_fault, header_in, count_in};

use crate::day::Header;
use crate::entry::{BODY, KEY};
use crate::faults::FileFault;

// The bytes of the header.
pub(crate) const HEADER: usize = 6;

// The most entries that a file may have.
const MOST_ENTRIES: usize = 1_000;

impl Header {
    // The first of its values that no day has.
    fn check(&self) -> Result<(), FileFault>
        ensures { result ≡ ruled (header_fault self.now) tt }
    {
        if !(23..=25).contains(&self.hours) {
            return Err(FileFault::Header(0));
        }
        if self.edition > 1 {
            return Err(FileFault::Header(1));
        }
        if self.region > 1 {
            return Err(FileFault::Header(2));
        }
        Ok(())
    }
}

// The length of a file of so many entries, few enough to count.
pub(crate) fn file_length(entries: usize) -> usize
    requires { entries ≤ 1000 }
    ensures { result ≡ 6 + 52 * entries }
{
    HEADER + (KEY + BODY) * entries
}

// The header and the number of entries, once they and the length of the file are found right.
pub(crate) fn open(bytes: &[u8]) -> Result<(Header, usize), FileFault>
    ensures { result ≡ ruled (opening_fault bytes.now) (header_in bytes.now, count_in bytes.now) }
{
    let Some(&[hours, edition, region, zero, high, low]) = bytes.first_chunk::<HEADER>() else {
        return Err(FileFault::Length(bytes.len()));
    };
    let header = Header {
        hours,
        edition,
        region,
    };
    header.check()?;
    if zero != 0 {
        return Err(FileFault::Header(3));
    }
    let entries = u16::from_be_bytes([high, low]) as usize;
    if entries > MOST_ENTRIES {
        return Err(FileFault::Header(4));
    }
    if bytes.len() != file_length(entries) {
        return Err(FileFault::Length(bytes.len()));
    }
    Ok((header, entries))
}

// Whether a day can be written into so many bytes of memory.
pub(crate) fn check_writing(header: &Header, calls: usize, room: usize) -> Result<(), FileFault>
    ensures { result ≡ ruled (write_fault header.now calls room) tt }
{
    header.check()?;
    if calls > MOST_ENTRIES {
        return Err(FileFault::Header(4));
    }
    if room < file_length(calls) {
        return Err(FileFault::Room(file_length(calls)));
    }
    Ok(())
}
