// Why a call is refused.
ghost use Rattle.std.specs.Prelude.{◌≡◌, Some};
ghost use Rattle.book.specs.declared.faults.Fault.TheVariants.{BadRegion, InStore};
ghost use Rattle.book.specs.Faults.{layer_name, told, report as report_of};

use record_store::StoreFault;
use settlement::{Refusal, UnknownRegion};
use std::fmt;

// The first thing that is wrong with a call. Hour and slot are those that the call named, also where they are what is
// refused.
#[derive(Clone, Copy, PartialEq, Eq, Debug)]
pub enum Fault {
    // A day has 23, 24 or 25 hours.
    BadHours,
    // There are two regions.
    BadRegion,
    // A record stands in the store that a day is opened over.
    Occupied,
    // The records that the store has for the hour break a limit.
    BadRecords {
        hour: u8,
        slot: u8,
    },
    // The day has no such hour.
    NoHour {
        hour: u8,
        slot: u8,
    },
    // The hour refuses the change or the question.
    Refused {
        refusal: Refusal,
        hour: u8,
        slot: u8,
    },
    // The store refuses the change.
    InStore(StoreFault),
}

// By hand, so that clauses know which fault `?` makes of an error.
impl From<UnknownRegion> for Fault {
    ghost from_gives = { λ _ r. r ≡ BadRegion };

    fn from(_number: UnknownRegion) -> Fault {
        Fault::BadRegion
    }
}

impl From<StoreFault> for Fault {
    ghost from_gives = { λ fault r. r ≡ InStore fault };

    fn from(fault: StoreFault) -> Fault {
        Fault::InStore(fault)
    }
}

// Which layer found a fault.
#[derive(Clone, Copy, PartialEq, Eq, Debug)]
pub enum Layer {
    File,
    Statement,
    Store,
}

impl fmt::Display for Layer {
    ghost output = { λ layer. Some (layer_name layer) };

    fn fmt<W: fmt::Write>(&self, f: &mut fmt::Formatter<W>) -> fmt::Result {
        f.write_str(match self {
            Layer::File => "file",
            Layer::Statement => "statement",
            Layer::Store => "store",
        })
    }
}

// What is told of a fault.
#[derive(Clone, Copy, PartialEq, Eq, Debug)]
pub struct Report {
    pub layer: Layer,
    pub number: u8,
    pub hour: u8,
    pub slot: u8,
}

// What is told of a fault that the statement found.
fn tell(number: u8, hour: u8, slot: u8) -> Report
    ensures { result ≡ told number hour slot }
{
    Report {
        layer: Layer::Statement,
        number,
        hour,
        slot,
    }
}

impl Fault {
    // Its layer, number, hour and slot; hour and slot are told as 0 where the call names none.
    pub fn report(self) -> Report
        ensures { result ≡ report_of self }
    {
        match self {
            Fault::BadHours => tell(1, 0, 0),
            Fault::BadRegion => tell(2, 0, 0),
            Fault::Occupied => tell(3, 0, 0),
            Fault::BadRecords { hour, slot } => tell(3, hour, slot),
            Fault::NoHour { hour, slot } => tell(5, hour, slot),
            Fault::Refused {
                refusal,
                hour,
                slot,
            } => tell(refusal.number(), hour, slot),
            Fault::InStore(fault) => Report {
                layer: Layer::Store,
                number: fault.number(),
                hour: fault.hour(),
                slot: fault.slot(),
            },
        }
    }
}
