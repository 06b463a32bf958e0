//! Changes of a contest in its tables: what each change does to their rows, and to those of the
//! cells.
#![tactic(auto)]

mod cell_rows;
mod entries;
mod kinds;
pub mod laws;
mod list_rows;
mod mark_rows;
mod one_row;
mod rejudging_rows;
mod settings_rows;
mod team_row;
mod upgrades;

pub use cell_rows::keep_cells;
pub use entries::write_entry;
pub use kinds::{are_of_kinds, is_of_kinds};
pub use upgrades::{insert_notices, upgrade};
