//! A board that is held beside another system's scoreboard.
ghost use Rattle.std.specs.Prelude.{◌≡◌, IfErr, IfOk, string_bytes};
ghost use Rattle.contest_comparison.specs.Comparisons.{comparison_text, has_difference};

use crate::differences::differences;
use crate::other_row::OtherRow;
use contest_score::Board;
use contest_types::{Refusal, Settings};
use std::alloc::Global;

/// What is told of a board that is held beside another.
#[derive(Drop)]
pub struct Comparison {
    /// A line for each difference; where there is none, that the boards are the same.
    pub text: String,
    /// Whether there is a difference.
    pub differs: bool,
}

/// Holds a board of these settings beside the rows of another system's scoreboard (own). The lines
/// come in the order of the board's rows. In a row they are rank, solved and time, then its problems
/// in the order of the columns, then the cells there of problems that the contest hasn't. At last
/// come the rows there that the board hasn't. A cell that isn't there counts as one of zeros.
///
/// # Errors
///
/// Want of memory alone.
pub fn compare(
    alloc: Global,
    settings: &Settings,
    board: &Board,
    there: &[OtherRow],
) -> Result<Comparison, Refusal>
    ensures text { IfOk result (λ c. string_bytes c.text ≡ comparison_text settings.now board.now there.now) }
    ensures differs { IfOk result (λ c. c.differs ≡ has_difference settings.now board.now there.now) }
    ensures err { IfErr result (λ e. e ≡ Refusal.Memory) }
{
    let text = differences(alloc, settings, board, there)?;
    if !text.is_empty() {
        return Ok(Comparison {
            text,
            differs: true,
        });
    }
    let teams = board.rows().len();
    let text = format!(in alloc; "the same: {teams} teams\n")?;
    Ok(Comparison {
        text,
        differs: false,
    })
}
