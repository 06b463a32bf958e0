//! Whether the times of each team's submissions never fall.
ghost use Rattle.std.specs.Prelude.{◌≡◌, ℕ, nat_le, nat_eq, cond, IfOk, OnOk, map};
ghost use Rattle.std.specs.HashMap.{get};
ghost use Rattle.std.specs.Map.{count_at};
ghost use Rattle.contest_types.specs.Series.{in_each, never_fall};
ghost use Rattle.contest_types.specs.ValidSubmissions.{of_one_team};
ghost use Rattle.contest_types.specs.declared.submission.Submission.{Submission as TheSubmission};

use contest_types::Submission;
use std::alloc::{AllocError, Global};
use std::collections::HashMap;

/// Whether no submission is earlier than one of its team before it.
///
/// # Errors
///
/// Want of memory alone.
pub(crate) fn times_never_fall(
    alloc: Global,
    submissions: &[Submission],
) -> Result<bool, AllocError>
    ensures { IfOk result (λ answer. answer ≡ in_each of_one_team (λ own. never_fall (map (λ (s : TheSubmission). s.time) own)) submissions.now) }
{
    let mut last = HashMap::new(alloc);
    for submission in submissions {
        if !is_in_time(&mut last, submission)? {
            return Ok(false);
        }
    }
    Ok(true)
}

// Whether a submission isn't earlier than the last one of its team, which it then is itself.
fn is_in_time(last: &mut HashMap<usize, u64>, submission: &Submission) -> Result<bool, AllocError>
    ensures in_time { IfOk result (λ in_time. in_time ≡ nat_le (count_at (get nat_eq last.old) submission.now.team) submission.now.time) }
    ensures last { OnOk result ((team : ℕ) → count_at (get nat_eq last.new) team ≡ cond (nat_eq submission.now.team team) submission.now.time (count_at (get nat_eq last.old) team)) }
{
    let time = submission.time.milliseconds();
    let before = match last.insert(submission.team, time)? {
        Some(before) => before,
        None => 0,
    };
    Ok(before <= time)
}
