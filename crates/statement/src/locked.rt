mod questions;

use crate::sheet::Sheet;

// The statement of a day that takes no more changes. It has the lines of the statement that was locked.
#[derive(Drop)]
pub struct Locked {
    pub(crate) sheet: Sheet,
}
