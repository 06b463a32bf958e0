//! What a team's row has to show for an award.
ghost use Rattle.std.specs.Prelude.{◌≡◌, ◌&&◌, Bool, IfOk, nat_lt};
ghost use Rattle.contest_score.specs.declared.row.Row.{Row};
ghost use Rattle.contest_score.specs.Awards.{award_to};

use crate::award::{Award, AwardText};
use crate::row::Row;
use contest_types::Rows;
use std::alloc::{AllocError, Global};

/// What a team's row has to show for an award, beside a solved problem.
pub trait Criterion {
    /// Whether a row shows it.
    ghost is_met: { Self → Row → Bool };

    /// Whether a row shows it.
    fn is_met(&self, row: &Row) -> bool
        ensures { result ≡ is_met self.now row.now };
}

/// Whether a row's team solved a problem, and its row meets the criterion.
fn wins<C: Criterion>(criterion: &C, row: &Row) -> bool
    ensures { result ≡ (nat_lt 0 row.now.score.solved && C.is_met criterion.now row.now) }
{
    row.score.solved > 0 && criterion.is_met(row)
}

/// The award of the teams that solved a problem and whose rows meet the criterion, in the order of
/// the board.
pub fn award_to<C: Criterion>(
    alloc: Global,
    id: AwardText,
    citation: AwardText,
    rows: &[Row],
    criterion: &C,
) -> Result<Award, AllocError>
    ensures { IfOk result (λ w. w ≡ award_to id citation (C.is_met criterion.now) rows.now) }
{
    let mut teams = Rows::new(alloc);
    for row in rows {
        if wins(criterion, row) {
            teams.push(row.team)?;
        }
    }
    Ok(Award {
        id,
        citation,
        teams,
    })
}
