//! The awards of a contest.
ghost use Rattle.std.specs.Prelude.{◌≡◌, [], ◌∷◌, ◌++◌, OnOk};
ghost use Rattle.contest_score.specs.Awards.{listed};

use crate::award::Award;
use contest_types::Rows;
use std::alloc::AllocError;

/// Awards, in the order in which they are listed. Contracts see the list of them.
pub type Awards = Rows<Award>;

/// Adds an award at the end, unless no team has it.
pub fn add(awards: &mut Awards, award: Award) -> Result<(), AllocError>
    ensures { OnOk result (awards.new ≡ awards.old ++ listed (award ∷ [])) }
{
    if award.teams.as_slice().is_empty() {
        return Ok(());
    }
    awards.push(award)
}
