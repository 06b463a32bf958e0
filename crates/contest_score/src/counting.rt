//! The cells of a list of submissions, counted in one pass.
ghost use Rattle.std.specs.Prelude.{◌≡◌, ◌<◌, ◌^◌, length, IfOk, IfErr, map, All};
ghost use Rattle.std.specs.List.{range_with_len};
ghost use Rattle.contest_score.specs.Counting.{HasRoom, cell_with, cells_table, row_at, with_cell};
ghost use Rattle.contest_score.specs.Table.{no_attempts, cell_in};
ghost use Rattle.contest_score.specs.MaskedCells.{mask_for, verdict_of, verdict_under};
ghost use Rattle.contest_score.specs.MaskedCells.{attempt_under, start_of, cell_for, IsAdmitted};

use crate::attempt::{Attempt, Verdict};
use crate::cell::Cell;
use crate::row::CellRow;
use crate::submission::JudgedSubmission;
use crate::table::PlainCells;
use contest_types::{
    Audience, JudgementType, Marks, Mask, Moment, Refusal, Settings, mask_for, verdict_under,
};
use std::alloc::{AllocError, Global};

/// The cells of every team at every problem, as a caller sees them now: those of the team's
/// submissions at the problem, in their order, under the caller's mask for the team. The
/// submissions stand in the order in which they were accepted, and each is counted once.
///
/// # Errors
///
/// Want of memory alone.
pub fn plain_cells(
    alloc: Global,
    settings: &Settings,
    marks: &Marks,
    audience: Audience,
    now: Moment,
    submissions: &[JudgedSubmission],
) -> Result<PlainCells, Refusal>
    requires few { length submissions.now < 2 ^ 32 }
    requires admitted { All (IsAdmitted settings.now marks.now) submissions.now }
    ensures table { IfOk result (λ t. t ≡ cells_table (cell_for audience settings.now marks.now now submissions.now) (length settings.now.teams) (length settings.now.problems)) }
    ensures cells { IfOk result (λ t. cell_in t ≡ cell_for audience settings.now marks.now now submissions.now) }
    ensures err { IfErr result (λ e. e ≡ Refusal.Memory) }
{
    let masks = masks(alloc, settings, marks, audience, now)?;
    let mut table = empty_table(alloc, settings.teams().len(), settings.problems().len())?;
    for submission in submissions {
        let mask = masks[submission.team as usize];
        count(&mut table, mask, settings, marks, submission);
    }
    Ok(table)
}

/// What the caller sees now of each team's verdicts.
fn masks(
    alloc: Global,
    settings: &Settings,
    marks: &Marks,
    audience: Audience,
    now: Moment,
) -> Result<Vec<Mask>, AllocError>
    ensures { IfOk result (λ v. v.items ≡ map (mask_for audience marks.now now) (range_with_len 0 (length settings.now.teams))) }
{
    let mut masks = Vec::new(alloc);
    for team in 0..settings.teams().len() {
        masks.push(mask_for(audience, marks, now, team))?;
    }
    Ok(masks)
}

/// The table with no attempts.
fn empty_table(alloc: Global, teams: usize, problems: usize) -> Result<PlainCells, AllocError>
    ensures { IfOk result (λ t. t ≡ cells_table (λ _ _. no_attempts) teams problems) }
{
    let mut rows = Vec::new(alloc);
    for _ in 0..teams {
        rows.push(empty_row(alloc, problems)?)?;
    }
    Ok(PlainCells::from_vec(rows))
}

fn empty_row(alloc: Global, problems: usize) -> Result<CellRow, AllocError>
    ensures { IfOk result (λ r. r ≡ map (λ _. no_attempts) (range_with_len 0 problems)) }
{
    let mut row = Vec::new(alloc);
    for _ in 0..problems {
        row.push(Cell::new())?;
    }
    Ok(CellRow::from_vec(row))
}

/// Counts one more submission, under the mask of its team.
fn count(
    table: &mut PlainCells,
    mask: Mask,
    settings: &Settings,
    marks: &Marks,
    submission: &JudgedSubmission,
)
    requires admitted { IsAdmitted settings.now marks.now submission.now }
    requires team { submission.now.team < length table.old }
    requires problem { submission.now.problem < length (row_at table.old submission.now.team) }
    requires room { HasRoom (cell_in table.old submission.now.team submission.now.problem) }
    ensures { table.new ≡ with_cell table.old submission.now.team submission.now.problem (cell_with (start_of marks.now) (cell_in table.old submission.now.team submission.now.problem) (attempt_under mask settings.now marks.now submission.now)) }
{
    let start = marks.start.unwrap();
    let attempt = attempt_under(mask, settings, marks, submission);
    table.count(
        submission.team as usize,
        submission.problem as usize,
        start,
        attempt,
    );
}

/// A submission as the caller sees it.
fn attempt_under(
    mask: Mask,
    settings: &Settings,
    marks: &Marks,
    submission: &JudgedSubmission,
) -> Attempt
    ensures { result ≡ attempt_under mask settings.now marks.now submission.now }
{
    let verdict = submission.verdict.map(|place| place as usize);
    seen_attempt(mask, settings, marks, submission.time, verdict)
}

/// An attempt at a moment as it is seen under a mask, with what is seen of the judgement type, by
/// its place, that was released on it last. It takes no memory.
pub fn seen_attempt(
    mask: Mask,
    settings: &Settings,
    marks: &Marks,
    time: Moment,
    verdict: Option<usize>,
) -> Attempt
    ensures { result ≡ record { time = time; verdict = verdict_of settings.now.types (verdict_under mask settings.now marks.now time verdict) } }
{
    let seen = verdict_under(mask, settings, marks, time, verdict);
    Attempt {
        time,
        verdict: verdict_of(settings.judgement_types(), seen),
    }
}

/// The judgement type at a place, as scoring sees it.
fn verdict_of(types: &[JudgementType], place: Option<usize>) -> Option<Verdict>
    ensures { result ≡ verdict_of types.now place }
{
    let judgement_type = types.get(place?)?;
    Some(Verdict {
        solving: judgement_type.solved,
        penalised: judgement_type.penalty,
    })
}
