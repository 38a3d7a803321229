// Day files: a day's header and calls as bytes, read and written.
#![tactic(auto)]

mod day;
mod entry;
mod faults;
mod header;
mod kind;
mod laying;
mod numbers;
mod reading;
mod writing;

pub use day::{Day, Header, ReadError};
pub use faults::FileFault;
pub use reading::read;
pub use writing::write;
