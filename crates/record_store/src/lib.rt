// Where an hour's records are kept: what any store means, and two kinds of store over memory that the caller lends.
#![tactic(auto)]

mod faults;
mod journal;
mod key;
mod places;
mod pool;
mod shelf;
mod store;

pub use faults::StoreFault;
pub use journal::Journal;
pub use places::{Place, check_places};
pub use pool::Pool;
pub use store::Store;
