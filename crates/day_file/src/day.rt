// A day as a file has it, and why none was read.
ghost use Rattle.std.specs.Prelude.{◌≡◌};
ghost use Rattle.day_file.specs.declared.day.ReadError.TheVariants.{Refused as refused_by, NoMemory as no_memory};

use crate::faults::FileFault;
use book::Change;
use std::alloc::{AllocError, AllocFailed};

// The day: how many hours it has, the edition it is settled under (0 older, 1 newer), and the region of the unit (0 East,
// 1 West). The values are bytes, as the file has them, since writing refuses bad ones by their place.
#[derive(Clone, Copy, PartialEq, Eq, Debug)]
pub struct Header {
    pub hours: u8,
    pub edition: u8,
    pub region: u8,
}

// A day that was read, its calls in the file's order.
#[derive(Drop)]
pub struct Day {
    pub header: Header,
    pub calls: Vec<Change>,
}

// Why no day was read: the file is refused, or there was no memory for its calls.
#[derive(Clone, Copy, PartialEq, Eq, Debug)]
pub enum ReadError {
    Refused(FileFault),
    NoMemory,
}

// By hand, these three, so that clauses know what `?` makes of an error.
impl From<FileFault> for ReadError {
    ghost from_gives = { λ fault r. r ≡ refused_by fault };

    fn from(fault: FileFault) -> ReadError {
        ReadError::Refused(fault)
    }
}

impl From<AllocError> for ReadError {
    ghost from_gives = { λ _ r. r ≡ no_memory };

    fn from(_error: AllocError) -> ReadError {
        ReadError::NoMemory
    }
}

impl<T: Drop> From<AllocFailed<T>> for ReadError {
    ghost from_gives = { λ _ r. r ≡ no_memory };

    fn from(_error: AllocFailed<T>) -> ReadError {
        ReadError::NoMemory
    }
}
