//! What the records of a replay say: a contest, its judgement types, problems and teams.
ghost use Rattle.std.specs.Prelude.{◌≡◌, IfOk, IfErr};
ghost use Rattle.contest_replay.specs.ReplayRows.{head_row, type_row, problem_row, team_row};

use super::record::ReplayRecord;
use contest_files::{flag, flag_or_empty, ordinal, time_span, time_span_or_empty};
use contest_types::{ContestHead, Id, JudgementType, Medals, Name, Problem, Refusal, Team};
use std::alloc::Global;

/// Minutes for each penalised attempt in a replay.
const PENALTY_TIME: u32 = 20;

/// How many ranks win each kind of medal in a replay.
const MEDALS: u32 = 4;

/// The contest of a record `contest`: id, name, duration, and the freeze's duration or nothing.
pub(crate) fn head_in(
    alloc: Global,
    fields: &ReplayRecord<'_>,
) -> Result<Option<ContestHead>, Refusal>
    ensures value { IfOk result (λ found. found ≡ head_row fields.now) }
    ensures err { IfErr result (λ e. e ≡ Refusal.Memory) }
{
    // What takes no memory comes first: nothing is let go where it is off its form.
    let Some(duration) = time_span(fields.f2) else {
        return Ok(None);
    };
    let Some(freeze) = time_span_or_empty(fields.f3) else {
        return Ok(None);
    };
    let Some(id) = Id::from_bytes(alloc, fields.id)? else {
        return Ok(None);
    };
    let Some(name) = Name::from_bytes(alloc, fields.f1)? else {
        return Ok(None);
    };
    Ok(Some(ContestHead {
        id,
        name,
        duration,
        freeze,
        penalty_time: PENALTY_TIME,
        verification: false,
        medals: Medals {
            gold: MEDALS,
            silver: MEDALS,
            bronze: MEDALS,
        },
    }))
}

/// The judgement type of a record `type`: id, name, whether it solves, and whether it costs penalty
/// time.
pub(crate) fn type_in(
    alloc: Global,
    fields: &ReplayRecord<'_>,
) -> Result<Option<JudgementType>, Refusal>
    ensures value { IfOk result (λ found. found ≡ type_row fields.now) }
    ensures err { IfErr result (λ e. e ≡ Refusal.Memory) }
{
    let Some(id) = Id::from_bytes(alloc, fields.id)? else {
        return Ok(None);
    };
    let Some(name) = Name::from_bytes(alloc, fields.f1)? else {
        return Ok(None);
    };
    let Some(solved) = flag(fields.f2) else {
        return Ok(None);
    };
    let Some(penalty) = flag(fields.f3) else {
        return Ok(None);
    };
    Ok(Some(JudgementType::new(id, name, solved, penalty)))
}

/// The problem of a record `problem`: id, label, name and ordinal.
pub(crate) fn problem_in(
    alloc: Global,
    fields: &ReplayRecord<'_>,
) -> Result<Option<Problem>, Refusal>
    ensures value { IfOk result (λ found. found ≡ problem_row fields.now) }
    ensures err { IfErr result (λ e. e ≡ Refusal.Memory) }
{
    // What takes no memory comes first: nothing is let go where it is off its form.
    let Some(ordinal) = ordinal(fields.f3) else {
        return Ok(None);
    };
    let Some(id) = Id::from_bytes(alloc, fields.id)? else {
        return Ok(None);
    };
    let Some(label) = Name::from_bytes(alloc, fields.f1)? else {
        return Ok(None);
    };
    let Some(name) = Name::from_bytes(alloc, fields.f2)? else {
        return Ok(None);
    };
    Ok(Some(Problem::new(id, label, name, ordinal)))
}

/// The team of a record `team`: id, name, whether it is hidden, and nothing.
pub(crate) fn team_in(alloc: Global, fields: &ReplayRecord<'_>) -> Result<Option<Team>, Refusal>
    ensures value { IfOk result (λ found. found ≡ team_row fields.now) }
    ensures err { IfErr result (λ e. e ≡ Refusal.Memory) }
{
    let Some(id) = Id::from_bytes(alloc, fields.id)? else {
        return Ok(None);
    };
    let Some(name) = Name::from_bytes(alloc, fields.f1)? else {
        return Ok(None);
    };
    let Some(hidden) = flag_or_empty(fields.f2) else {
        return Ok(None);
    };
    if !fields.f3.is_empty() {
        return Ok(None);
    }
    let mut team = Team::new(alloc, id, name);
    team.hidden = hidden;
    Ok(Some(team))
}
