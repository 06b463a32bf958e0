//! Submissions with the verdicts that were released last on them.
ghost use Rattle.std.specs.Prelude.{◌≡◌, ℕ, ◌<◌, ◌^◌, OnOk, IfOk, All, length, map};
ghost use Rattle.contest_types.specs.Setup.{IsValid};
ghost use Rattle.contest_score.specs.LastVerdicts.{judged_by, last_type, released_with, type_in};

use crate::submission::JudgedSubmission;
use contest_types::{Release, Settings, Submission};
use std::alloc::{AllocError, Global};
use std::collections::HashMap;

/// The place of the judgement type that was released last on each submission, by the place of its
/// team and its number.
type LastVerdicts = HashMap<(usize, usize), u32>;

/// Takes one more release, which replaces an earlier one on its submission.
fn take_release(last: &mut LastVerdicts, release: &Release) -> Result<(), AllocError>
    requires { release.now.verdict < 2 ^ 32 }
    ensures { OnOk result ((team number : ℕ) → type_in last.new team number ≡ released_with (type_in last.old) release.now team number) }
{
    let submission = (release.team, release.number);
    last.insert(submission, release.verdict as u32)?;
    Ok(())
}

/// The last verdicts, in one pass over the releases, which stand in the order in which they were
/// made.
fn last_verdicts(alloc: Global, releases: &[Release]) -> Result<LastVerdicts, AllocError>
    requires { All (λ v. v.verdict < 2 ^ 32) releases.now }
    ensures { IfOk result (λ last. (team number : ℕ) → type_in last team number ≡ last_type releases.now team number) }
{
    let mut last = HashMap::new(alloc);
    for release in releases {
        take_release(&mut last, release)?;
    }
    Ok(last)
}

/// The submissions with their last verdicts, in one pass over the releases and one over the
/// submissions.
pub fn judged_submissions(
    alloc: Global,
    settings: &Settings,
    submissions: &[Submission],
    releases: &[Release],
) -> Result<Vec<JudgedSubmission>, AllocError>
    requires teams { All (λ s. s.team < length settings.now.teams) submissions.now }
    requires problems { All (λ s. s.problem < length settings.now.problems) submissions.now }
    requires types { All (λ v. v.verdict < length settings.now.types) releases.now }
    ensures { IfOk result (λ v. v.items ≡ map (judged_by (last_type releases.now)) submissions.now) }
{
    are_within_limits(settings);
    let last = last_verdicts(alloc, releases)?;
    let mut judged = Vec::new(alloc);
    for submission in submissions {
        judged.push(judged_by(&last, submission))?;
    }
    Ok(judged)
}

/// Settings are within their limits, so that each place in them is short.
fn are_within_limits(settings: &Settings)
    ensures { IsValid settings.now }
{
    let _ = settings.head();
}

/// A submission with its last verdict.
fn judged_by(last: &LastVerdicts, submission: &Submission) -> JudgedSubmission
    requires team { submission.now.team < 2 ^ 32 }
    requires problem { submission.now.problem < 2 ^ 32 }
    ensures { result ≡ judged_by (type_in last.now) submission.now }
{
    let verdict = last.get(&(submission.team, submission.number)).copied();
    JudgedSubmission {
        team: submission.team as u32,
        problem: submission.problem as u32,
        time: submission.time,
        verdict,
    }
}
