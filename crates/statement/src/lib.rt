// The statement of a power station's day, kept true through every change.
#![tactic(auto)]

mod day;
mod locked;
mod sheet;
mod statement;

pub use locked::Locked;
pub use statement::Statement;
