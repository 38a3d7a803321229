// The run of a day file: its calls through the gate, and what is printed of them.
#![tactic(auto)]

mod days;
mod entries;
mod pages;
mod printout;

pub use days::{journal_day, pool_day};
pub use pages::day_page;
pub use printout::Printout;
