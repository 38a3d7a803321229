// What the example programs and the tests have in common: the operator's figures, two hours of a station, and how an
// hour's figures are printed.
#![tactic(auto)]

mod figures;
mod hours;
mod print;

pub use figures::{FIVE_MINUTES, SOLD};
pub use hours::{OPERATORS_HOUR, SHARED_HOUR};
pub use print::{print_amounts, print_figures, print_heading, print_line, print_totals};
