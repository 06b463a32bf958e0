//! The cells of a contest, of its own lists of submissions and releases.
ghost use Rattle.std.specs.Prelude.{◌≡◌, ◌↔◌, ◌<◌, IsTrue, IfOk, IfErr, All, length, map};
ghost use Rattle.contest_types.specs.State.{ContestState};
ghost use Rattle.contest_score.specs.Contest.{seen_cell};
ghost use Rattle.contest_score.specs.Lists.{CanBeScored, IsCountable};
ghost use Rattle.contest_types.specs.Loads.{without_file};
ghost use Rattle.contest_score.specs.Table.{cell_in};

use crate::counting::plain_cells;
use crate::last_verdicts::judged_submissions;
use crate::table::PlainCells;
use contest_types::{Audience, Fixed, Moment, Refusal, Release, Settings, Submission, has_come};
use std::alloc::Global;

/// The cells of every team at every problem, as a caller sees them now, of a contest's submissions
/// and releases, each in the order in which they were accepted. The submissions may be whole or
/// without their files, which aren't read. Of the releases on a submission the last one counts. The
/// lists of a valid contest can be scored.
///
/// # Errors
///
/// Want of memory alone.
pub fn contest_cells(
    alloc: Global,
    fixed: &Fixed,
    audience: Audience,
    now: Moment,
    submissions: &[Submission],
    releases: &[Release],
) -> Result<PlainCells, Refusal>
    requires { CanBeScored fixed.now submissions.now releases.now }
    ensures cells { IfOk result (λ t. (x : ContestState) → x.fixed ≡ fixed.now → x.submissions ≡ submissions.now → x.releases ≡ releases.now → cell_in t ≡ seen_cell audience now x) }
    ensures loaded { IfOk result (λ t. (x : ContestState) → x.fixed ≡ fixed.now → map without_file x.submissions ≡ submissions.now → x.releases ≡ releases.now → cell_in t ≡ seen_cell audience now x) }
    ensures err { IfErr result (λ e. e ≡ Refusal.Memory) }
{
    let judged = judged_submissions(alloc, &fixed.settings, submissions, releases)?;
    let cells = plain_cells(alloc, &fixed.settings, &fixed.marks, audience, now, &judged)?;
    Ok(cells)
}

/// Whether the lists can be scored: each submission names a team and a problem that are there, and
/// isn't before the start, which is then set; each release names a judgement type that is there;
/// and there are fewer than 4,294,967,296 submissions.
pub fn can_be_scored(fixed: &Fixed, submissions: &[Submission], releases: &[Release]) -> bool
    ensures { IsTrue result ↔ CanBeScored fixed.now submissions.now releases.now }
{
    submissions.len() <= u32::MAX as usize
        && are_countable(fixed, submissions)
        && are_of_types(&fixed.settings, releases)
}

fn are_countable(fixed: &Fixed, submissions: &[Submission]) -> bool
    ensures { IsTrue result ↔ All (IsCountable fixed.now) submissions.now }
{
    submissions
        .iter()
        .all(|submission| is_countable(fixed, submission))
}

fn is_countable(fixed: &Fixed, submission: &Submission) -> bool
    ensures { IsTrue result ↔ IsCountable fixed.now submission.now }
{
    submission.team < fixed.settings.teams().len()
        && submission.problem < fixed.settings.problems().len()
        && has_come(fixed.marks.start, submission.time)
}

fn are_of_types(settings: &Settings, releases: &[Release]) -> bool
    ensures { IsTrue result ↔ All (λ v. v.verdict < length settings.now.types) releases.now }
{
    releases.iter().all(|release| release.verdict < settings.judgement_types().len())
}
