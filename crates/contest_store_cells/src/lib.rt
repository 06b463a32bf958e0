//! The cells of a contest as rows of a table.
#![tactic(auto)]

mod cells;
mod comparing;
pub mod laws;
mod listing;
mod placed;

pub use cells::cell_cells;
pub use comparing::are_cells;
pub use listing::placed_cells;
pub use placed::PlacedCell;
