//! The text that `replay` gives of a file.
ghost use Rattle.std.specs.Prelude.{◌≡◌, ◌⊎◌, ◌<◌, ◌^◌, Ok, Err, IfOk, IfErr, All, length};
ghost use Rattle.std.specs.Prelude.{string_bytes};
ghost use Rattle.contest_score.specs.MaskedCells.{IsAdmitted};
ghost use Rattle.contest_cli_replay.specs.ReplayText.{asked_board, audience_for, board_at};
ghost use Rattle.contest_cli_replay.specs.ReplayText.{board_of, moment_for, shown};

use crate::replay_words::ReplayWords;
use contest_replay::{ReplayContest, read_replay_csv};
use contest_score::{Board, JudgedSubmission, board, plain_cells};
use contest_text::board_text;
use contest_types::{Audience, Marks, Moment, Refusal, RelTime, Settings, TimeSpan};
use std::alloc::Global;

/// The text of the board that the words ask for, at a contest time or at the end, of the contest
/// that the bytes spell. The error is the bytes' first fault, or want of memory.
pub(crate) fn replay_text(
    alloc: Global,
    asked: &ReplayWords,
    bytes: &[u8],
) -> Result<String, Refusal>
    ensures ok { IfOk result (λ text. board_of asked.now.jury asked.now.thawed asked.now.at bytes.now ≡ Ok (string_bytes text)) }
    ensures err { IfErr result (λ r. (r ≡ Refusal.Memory) ⊎ (board_of asked.now.jury asked.now.thawed asked.now.at bytes.now ≡ Err r)) }
{
    let contest = read_replay_csv(alloc, bytes)?;
    contest_text(alloc, asked, contest)
}

/// The text of the board that the words ask for, at a contest time or at the end, of a contest.
///
/// # Errors
///
/// Want of memory alone.
pub fn contest_text(
    alloc: Global,
    asked: &ReplayWords,
    contest: ReplayContest,
) -> Result<String, Refusal>
    ensures ok { IfOk result (λ text. shown asked.now.jury asked.now.thawed asked.now.at (Ok contest) ≡ Ok (string_bytes text)) }
    ensures err { IfErr result (λ e. e ≡ Refusal.Memory) }
{
    let mut contest = contest;
    let board = contest_board(alloc, asked, &mut contest)?;
    let settings = contest.settings();
    let marks = contest.marks(asked.thawed);
    let now = moment_for(settings, asked.at);
    let audience = audience_for(asked.jury);
    board_text(alloc, settings, &marks, now, audience, None, &board)
}

/// The board that the words ask for, at a contest time or at the end, of a contest. Its submissions
/// after that moment are left out, its settings stay.
///
/// # Errors
///
/// Want of memory alone.
pub fn contest_board(
    alloc: Global,
    asked: &ReplayWords,
    contest: &mut ReplayContest,
) -> Result<Board, Refusal>
    ensures board { IfOk result (λ b. b ≡ asked_board asked.now.jury asked.now.thawed asked.now.at contest.old) }
    ensures settings { contest.new.settings ≡ contest.old.settings }
    ensures err { IfErr result (λ e. e ≡ Refusal.Memory) }
{
    let marks = contest.marks(asked.thawed);
    let now = moment_for(contest.settings(), asked.at);
    contest.retain_until(now);
    board_at(
        alloc,
        contest.settings(),
        &marks,
        now,
        audience_for(asked.jury),
        contest.submissions(),
    )
}

/// The board of these submissions, for a caller at a moment.
fn board_at(
    alloc: Global,
    settings: &Settings,
    marks: &Marks,
    now: Moment,
    audience: Audience,
    submissions: &[JudgedSubmission],
) -> Result<Board, Refusal>
    requires few { length submissions.now < 2 ^ 32 }
    requires admitted { All (IsAdmitted settings.now marks.now) submissions.now }
    ensures board { IfOk result (λ b. b ≡ board_at audience settings.now marks.now now submissions.now) }
    ensures err { IfErr result (λ e. e ≡ Refusal.Memory) }
{
    let cells = plain_cells(alloc, settings, marks, audience, now, submissions)?;
    board(alloc, settings, None, &cells)
}

/// Who looks: the jury, or anyone.
fn audience_for(jury: bool) -> Audience
    ensures { result ≡ audience_for jury }
{
    if jury {
        Audience::Jury
    } else {
        Audience::Public
    }
}

/// The moment of a contest time, at the earliest the start; the end where none is asked for.
fn moment_for(settings: &Settings, at: Option<RelTime>) -> Moment
    ensures { result ≡ moment_for settings.now at }
{
    match at {
        None => Moment::from_time_span(settings.head().duration),
        Some(time) => match TimeSpan::from_reltime(time) {
            Some(span) => Moment::from_time_span(span),
            None => Moment::from_time_span(TimeSpan::ZERO),
        },
    }
}
