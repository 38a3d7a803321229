// The plain book of a day: the calls of a statement, their answers and faults, what each call comes to, and the law by
// which a statement and its store are held to the book.
#![tactic(auto)]

mod calls;
mod faults;
mod figures;
mod words;

pub use calls::{Answer, Call, Change, Entry};
pub use faults::{Fault, Layer, Report};
pub use figures::{DayLine, Row, Table};
pub use words::book_in_other_words;
