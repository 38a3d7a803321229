// What an owner's terminal prints: the listing of a locked statement, and the lines of what is refused.
#![tactic(auto)]

#[cfg(test)]
mod extremes;
mod line;
mod listing;
mod refusals;
mod rows;

pub use line::Line;
pub use listing::{list, listing_length};
pub use refusals::{file_line, refused_line};
