//! A contest's results as text: the board that a terminal shows, and as CSV; the awards; records of
//! CSV.
#![tactic(auto)]

mod awards;
mod board;
mod cell_text;
mod csv_board;
mod csv_record;
mod padding;

pub use awards::awards_text;
pub use board::{board_text, number_text};
pub use csv_board::board_csv;
pub use csv_record::{push_fields, record_text};
