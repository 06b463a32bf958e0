//! The contest that a file sets up.
ghost use Rattle.std.specs.Prelude.{◌≡◌, ◌⊎◌, IfOk, IfErr};
ghost use Rattle.serde_json.specs.View.{view};
ghost use Rattle.contest_types.specs.declared.contest.Contest.{Contest as TheContest};
ghost use Rattle.contest_import.specs.ContestFile.{IsContestFile, SaysContest, head_in};

use crate::contest_members::{duration_in, freeze_in, medals_in, penalty_in, scored_in, start_in};
use crate::contest_validity::can_be_set_up;
use contest_files::{flag_or_false, id_member, name_in, value_of};
use contest_types::{Contest, ContestHead, Refusal};
use serde_json::Value;
use std::alloc::Global;

/// The contest that a JSON file says (Contest API 2023-06, contest object): id, name and duration,
/// and, where they are there, start_time, scoreboard_freeze_duration, scoreboard_type,
/// penalty_time, verification and medals.
///
/// # Errors
///
/// `Malformed` where the file says none, or one that can't be set up; else want of memory.
pub fn read_contest_json(alloc: Global, bytes: &[u8]) -> Result<Contest, Refusal>
    ensures ok { IfOk result (λ c. IsContestFile bytes.now c) }
    ensures err { IfErr result (λ e. (e ≡ Refusal.Memory) ⊎ ((e ≡ Refusal.Malformed) × ((c : TheContest) → IsContestFile bytes.now c → ⊥))) }
{
    match value_of(alloc, bytes) {
        Ok(value) => contest_in(alloc, &value),
        Err(refusal) => Err(refusal),
    }
}

// The contest that an object says, if it can be set up.
fn contest_in(alloc: Global, value: &Value) -> Result<Contest, Refusal>
    ensures ok { IfOk result (λ c. SaysContest (view value.now) c) }
    ensures err { IfErr result (λ e. (e ≡ Refusal.Memory) ⊎ ((e ≡ Refusal.Malformed) × ((c : TheContest) → SaysContest (view value.now) c → ⊥))) }
{
    let Some(head) = head_in(alloc, value)? else {
        return Err(Refusal::Malformed);
    };
    let start = start_in(value)?;
    let contest = Contest { head, start };
    if can_be_set_up(&contest) {
        Ok(contest)
    } else {
        Err(Refusal::Malformed)
    }
}

// All that an object says but the start.
#[tactic(auto, unfolding(crate::specs::ContestFile::head_in))]
fn head_in(alloc: Global, value: &Value) -> Result<Option<ContestHead>, Refusal>
    ensures value { IfOk result (λ found. found ≡ head_in (view value.now)) }
    ensures err { IfErr result (λ e. e ≡ Refusal.Memory) }
{
    let Some(id) = id_member(alloc, value, "id")? else {
        return Ok(None);
    };
    let Some(name) = name_in(alloc, value, "name")? else {
        return Ok(None);
    };
    let Some(duration) = duration_in(value) else {
        return Ok(None);
    };
    let Some(freeze) = freeze_in(value) else {
        return Ok(None);
    };
    if scored_in(value).is_none() {
        return Ok(None);
    }
    let Some(penalty_time) = penalty_in(value) else {
        return Ok(None);
    };
    let Some(verification) = flag_or_false(value, "verification") else {
        return Ok(None);
    };
    let Some(medals) = medals_in(value) else {
        return Ok(None);
    };
    Ok(Some(ContestHead {
        id,
        name,
        duration,
        freeze,
        penalty_time,
        verification,
        medals,
    }))
}
