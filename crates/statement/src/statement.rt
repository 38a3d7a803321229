mod calls;
mod changes;
mod locking;
mod opening;
mod questions;
mod rows;

use crate::sheet::Sheet;

// The statement of a day, under an edition.
#[derive(Drop)]
pub struct Statement<E> {
    edition: E,
    sheet: Sheet,
}
