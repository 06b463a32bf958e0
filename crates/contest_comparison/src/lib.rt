//! A shadow: a second system that reckons the same board. Its scoreboard is read, and a board is
//! held beside it.
#![tactic(auto)]

mod comparison;
mod differences;
mod listed;
mod other_row;
mod scoreboard;
mod value_lines;
mod values;

pub use comparison::{Comparison, compare};
pub use other_row::{OtherCell, OtherRow};
pub use scoreboard::read_scoreboard;
pub use values::{CellValues, RowValues};
