//! Pass-fail scoring: what a team's attempts come to, who stands where, and whose verdicts a caller
//! sees.
#![tactic(auto)]

mod attempt;
mod award;
mod award_list;
mod awarding;
mod cached_cells;
mod cell;
mod cells;
mod counting;
mod criterion;
mod first_solves;
mod group_awards;
mod last_verdicts;
pub mod laws;
mod lists;
mod ranked_awards;
mod ranking;
mod results;
mod row;
mod score;
mod scoreboard;
pub mod scoring_laws;
mod shown;
mod solve;
mod solve_list;
mod standing;
mod submission;
mod table;

pub use attempt::{Attempt, Verdict};
pub use award::{Award, AwardText};
pub use award_list::Awards;
pub use awarding::awards;
pub use cached_cells::{CachedCells, MaskedCell, SeenCells};
pub use cell::{Cell, cell_of, with_attempt};
pub use cells::Cells;
pub use contest_types::{Mask, mask_for, verdict_under};
pub use counting::{plain_cells, seen_attempt};
pub use lists::{can_be_scored, contest_cells};
pub use ranking::board;
pub use results::{is_final, shows_awards};
pub use row::{CellRow, Row};
pub use score::Score;
pub use scoreboard::Board;
pub use solve::Solve;
pub use solve_list::contest_solves;
pub use submission::{JudgedSubmission, are_admitted};
pub use table::PlainCells;
