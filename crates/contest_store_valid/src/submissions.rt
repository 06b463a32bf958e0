//! Whether the submissions of a contest are valid.
ghost use Rattle.std.specs.Prelude.{◌≡◌, nat_le, IfOk, length, map};
ghost use Rattle.std.specs.List.{list_all};
ghost use Rattle.contest_types.specs.Series.{in_each, count_up, have_own_keys};
ghost use Rattle.contest_types.specs.ValidSubmissions.{has_valid_submissions, is_valid_submission};
ghost use Rattle.contest_types.specs.ValidSubmissions.{of_one_team, are_valid_submissions};
ghost use Rattle.contest_types.specs.declared.submission.Submission.{Submission as TheSubmission};
ghost use Rattle.contest_store_valid.specs.Keys.{keyed, read};

use crate::keys::push_key;
use crate::numbering::{are_at_most, are_numbered};
use crate::times::times_never_fall;
use contest_lists::Lists;
use contest_types::limits::{POSTED_FILE, TEAM_SUBMISSIONS};
use contest_types::{Fixed, Submission, end_of, has_come, is_reached};
use std::alloc::{AllocError, Global};

/// Whether each submission names what is there, is made while the contest runs and has no file that
/// is too large, and whether each team's count up, are made one after another, have keys of their
/// own and aren't too many.
///
/// # Errors
///
/// Want of memory alone.
pub(crate) fn has_valid_submissions(alloc: Global, lists: &Lists) -> Result<bool, AllocError>
    ensures { IfOk result (λ answer. answer ≡ has_valid_submissions lists.now) }
{
    let submissions = lists.submissions();
    if !are_valid_alone(lists.fixed(), submissions) {
        return Ok(false);
    }
    are_valid_by_team(alloc, submissions)
}

#[tactic(auto, using(crate::proofs::SubmissionLemmas::by_team))]
fn are_valid_by_team(alloc: Global, submissions: &[Submission]) -> Result<bool, AllocError>
    ensures { IfOk result (λ answer. answer ≡ in_each of_one_team are_valid_submissions submissions.now) }
{
    let counted = are_numbered_by_team(alloc, submissions)?;
    let in_time = times_never_fall(alloc, submissions)?;
    let keyed = have_own_keys(alloc, submissions)?;
    let few = are_few(alloc, submissions)?;
    Ok(counted && in_time && keyed && few)
}

fn are_valid_alone(fixed: &Fixed, submissions: &[Submission]) -> bool
    ensures { result ≡ list_all (is_valid_submission fixed.now) submissions.now }
{
    for submission in submissions {
        if !is_valid_submission(fixed, submission) {
            return false;
        }
    }
    true
}

fn is_valid_submission(fixed: &Fixed, submission: &Submission) -> bool
    ensures { result ≡ is_valid_submission fixed.now submission.now }
{
    submission.team < fixed.settings.teams().len()
        && submission.problem < fixed.settings.problems().len()
        && submission.language < fixed.settings.languages().len()
        && has_come(fixed.marks.start, submission.time)
        && !is_reached(end_of(&fixed.settings, &fixed.marks), submission.time)
        && submission.file.as_slice().len() <= POSTED_FILE
}

// Whether each submission has the number that it has among its team's.
#[tactic(auto, using(crate::proofs::SubmissionLemmas::numbered_by_team))]
fn are_numbered_by_team(alloc: Global, submissions: &[Submission]) -> Result<bool, AllocError>
    ensures { IfOk result (λ answer. answer ≡ in_each of_one_team (λ own. count_up (map (λ (s : TheSubmission). s.number) own)) submissions.now) }
{
    let teams = teams_of(alloc, submissions)?;
    let numbers = numbers_of(alloc, submissions)?;
    are_numbered(alloc, &teams, &numbers)
}

#[tactic(auto, using(crate::proofs::SubmissionLemmas::few_by_team))]
fn are_few(alloc: Global, submissions: &[Submission]) -> Result<bool, AllocError>
    ensures { IfOk result (λ answer. answer ≡ in_each of_one_team (λ own. nat_le (length own) TEAM_SUBMISSIONS) submissions.now) }
{
    let teams = teams_of(alloc, submissions)?;
    are_at_most(alloc, TEAM_SUBMISSIONS, &teams)
}

fn teams_of(alloc: Global, submissions: &[Submission]) -> Result<Vec<usize>, AllocError>
    ensures { IfOk result (λ teams. teams.items ≡ map (λ (s : TheSubmission). s.team) submissions.now) }
{
    submissions
        .iter()
        .map(|submission| submission.team)
        .collect(alloc)
}

fn numbers_of(alloc: Global, submissions: &[Submission]) -> Result<Vec<usize>, AllocError>
    ensures { IfOk result (λ numbers. numbers.items ≡ map (λ (s : TheSubmission). s.number) submissions.now) }
{
    submissions
        .iter()
        .map(|submission| submission.number)
        .collect(alloc)
}

// Whether no team has a key twice.
#[tactic(auto, using(crate::proofs::SubmissionLemmas::keys_by_team))]
fn have_own_keys(alloc: Global, submissions: &[Submission]) -> Result<bool, AllocError>
    ensures { IfOk result (λ answer. answer ≡ in_each of_one_team (λ own. have_own_keys (map (λ (s : TheSubmission). s.key) own)) submissions.now) }
{
    let keys = keys_of(alloc, submissions)?;
    are_at_most(alloc, 1, &keys)
}

// The keys, each with its team.
fn keys_of(alloc: Global, submissions: &[Submission]) -> Result<Vec<(usize, &str)>, AllocError>
    ensures { IfOk result (λ keys. map read keys.items ≡ keyed (λ (s : TheSubmission). s.team) (λ s. s.key) submissions.now) }
{
    let mut keys = Vec::new(alloc);
    for submission in submissions {
        push_key(&mut keys, submission.team, &submission.key)?;
    }
    Ok(keys)
}
