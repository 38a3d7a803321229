// Tables of calls to a statement, with what each is answered. Expected values are worked out by hand.
#![tactic(auto)]

mod figures;
mod locking;
#[cfg(test)]
mod openings;
#[cfg(test)]
mod refusals;
#[cfg(test)]
mod settling;

pub use locking::closing_line;
