// Why a day file, memory for one, or what one of its entries asks is refused.
ghost use Rattle.std.specs.Prelude.{◌≡◌};
ghost use Rattle.day_file.specs.declared.faults.FileFault.TheVariants.{InStatement};
ghost use Rattle.day_file.specs.Faults.{report as report_of, place as place_of};

use book::{Fault, Layer, Report};

// The first thing that is wrong, with its place in the file.
#[derive(Clone, Copy, PartialEq, Eq, Debug)]
pub enum FileFault {
    // The file is not as long as its header says, or too short for a header: its length.
    Length(usize),
    // A value of the header: its byte.
    Header(usize),
    // The kind of an entry: its byte.
    Kind(usize),
    // A byte that must be zero.
    NotZero(usize),
    // The memory to write into is too short: the length needed.
    Room(usize),
    // The statement refuses what an entry asks.
    InStatement(Fault),
}

// By hand, so that clauses know which fault `?` makes of the statement's.
impl From<Fault> for FileFault {
    ghost from_gives = { λ fault r. r ≡ InStatement fault };

    fn from(fault: Fault) -> FileFault {
        FileFault::InStatement(fault)
    }
}

impl FileFault {
    // Its layer, number, hour and slot; those of the statement's fault are passed on.
    pub fn report(self) -> Report
        ensures { result ≡ report_of self }
    {
        let number = match self {
            FileFault::Length(_) => 16,
            FileFault::Header(_) => 17,
            FileFault::Kind(_) => 18,
            FileFault::NotZero(_) => 19,
            FileFault::Room(_) => 20,
            FileFault::InStatement(fault) => return fault.report(),
        };
        // The file's own layer names no hour and no slot.
        Report {
            layer: Layer::File,
            number,
            hour: 0,
            slot: 0,
        }
    }

    // Its place: a byte of the file, the file's length, or the length needed; 0 where the statement found the fault.
    pub fn place(self) -> usize
        ensures { result ≡ place_of self }
    {
        match self {
            FileFault::Length(place)
            | FileFault::Header(place)
            | FileFault::Kind(place)
            | FileFault::NotZero(place)
            | FileFault::Room(place) => place,
            FileFault::InStatement(_) => 0,
        }
    }
}
