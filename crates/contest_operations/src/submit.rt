//! A team submits: what it posts.
ghost use Rattle.std.specs.Prelude.{◌≡◌, ◌⊎◌, Ok, Err, true, is_some, IfOk, IfErr};
ghost use Rattle.contest_operations.specs.PostedSubmissions.{posted_submission};

use crate::command::Posted;
use contest_requests::{Request, read_submission};
use contest_types::{Fixed, Refusal};
use std::alloc::Global;

/// What the team at a place, from 0, posts, if the caller is one: only a team submits.
///
/// # Errors
///
/// `RoleForbids`, then `Malformed` and `BodyTooLarge` as `read_submission` gives them; else want of
/// memory.
pub fn post_submission(
    alloc: Global,
    fixed: &Fixed,
    team: Option<usize>,
    request: Request,
) -> Result<Posted, Refusal>
    ensures ok { IfOk result (λ posted. posted_submission fixed.now team request ≡ Ok posted) }
    ensures err { IfErr result (λ e. (e ≡ Refusal.Memory) ⊎ (posted_submission fixed.now team request ≡ Err e)) }
    ensures forbids { IfErr result (λ e. e ≡ Refusal.Memory → is_some team ≡ true) }
{
    let Some(team) = team else {
        return Err(Refusal::RoleForbids);
    };
    let id = fixed.settings.team_id(team).as_bytes();
    let wanted = read_submission(alloc, id, request.key, request.body.as_slice())?;
    Ok(Posted::Submission(team, wanted))
}
