//! A team submits.
ghost use Rattle.std.specs.Prelude.{◌≡◌, None};
ghost use Rattle.contest_rules.specs.Submitting.{asks_the_same, fresh, has_key, lacks_entry_point};
ghost use Rattle.contest_rules.specs.Submitting.{later, repeated, submit, takes_submissions};

use crate::{Decision, RuleRefusal};
use contest_types::limits::TEAM_SUBMISSIONS;
use contest_types::{Fixed, Id, Moment, Name, Phase, Rows, Submission, phase};
use std::marker::Model;

/// What a team asks for when it submits (Contest API 2023-06, submissions).
#[derive(Drop)]
pub struct WantedSubmission {
    /// The id of the problem.
    pub problem: Id,
    /// The id of the language.
    pub language: Id,
    /// Where the program starts, if that is said.
    pub entry_point: Option<Name>,
    /// The bytes of the file.
    pub file: Rows<u8>,
    /// The idempotency key, if there is one.
    pub key: Option<Id>,
}

/// A submission that stands, and its file, which isn't loaded with it.
#[derive(Drop)]
pub struct Standing<'a> {
    /// The submission, without its file.
    pub submission: &'a Submission,
    /// The bytes of its file.
    pub file: &'a [u8],
}

impl<'a> Model for Standing<'a> {
    ghost use Rattle.contest_types.specs.declared.submission.Submission.{Submission as TheSubmission};

    ghost Value = { TheSubmission };

    ghost view = { λ s. record s.submission.now { file = s.file.now } };
}

/// A team's submissions so far, as far as its next one is decided by them.
#[derive(Drop)]
pub struct OwnSoFar<'a> {
    /// How many there are.
    pub count: usize,
    /// When the last one came.
    pub last: Option<Moment>,
    /// The one under the key that is asked with, if there is one.
    pub standing: Option<Standing<'a>>,
}

/// What becomes of a submission that the team at a place, from 0, hands in now. It takes no memory.
///
/// # Errors
///
/// A problem or a language that isn't there is refused first (`UnknownReference`), then a missing
/// entry point (`EntryPointMissing`). A key that stands answers for itself, whatever now is: with
/// equal content its submission stands, with other content it is refused (`KeyReused`). Then come
/// the clock (`NotOpen` unless the contest runs and no finalized mark is set) and the team's limit
/// of 500 (`TeamLimit`). A submission counts as of now, but never before the team's last (own).
pub fn decide_submission<'a>(
    fixed: &Fixed,
    own: OwnSoFar<'a>,
    now: Moment,
    team: usize,
    wanted: WantedSubmission,
) -> Result<Decision<Submission, Standing<'a>>, RuleRefusal>
    ensures { result ≡ submit fixed.now now team own.entry wanted }
{
    let Some(problem) = fixed.settings.problem_place(wanted.problem.as_bytes()) else {
        return Err(RuleRefusal::UnknownReference);
    };
    let Some(language) = fixed.settings.language_place(wanted.language.as_bytes()) else {
        return Err(RuleRefusal::UnknownReference);
    };
    if lacks_entry_point(fixed, language, &wanted.entry_point) {
        return Err(RuleRefusal::EntryPointMissing);
    }
    match own.standing {
        Some(standing) => repeated(standing, problem, language, &wanted),
        None => fresh(
            fixed, own.count, own.last, now, team, problem, language, wanted,
        ),
    }
}

// What stands under the key, if it is what is asked for.
fn repeated<'a>(
    standing: Standing<'a>,
    problem: usize,
    language: usize,
    wanted: &WantedSubmission,
) -> Result<Decision<Submission, Standing<'a>>, RuleRefusal>
    ensures { result ≡ repeated standing.entry problem language wanted.now }
{
    if asks_the_same(&standing, problem, language, wanted) {
        Ok(Decision::Stands(standing))
    } else {
        Err(RuleRefusal::KeyReused)
    }
}

// What no standing key answers for: the clock is asked, and then how many the team has.
fn fresh<'a>(
    fixed: &Fixed,
    count: usize,
    last: Option<Moment>,
    now: Moment,
    team: usize,
    problem: usize,
    language: usize,
    wanted: WantedSubmission,
) -> Result<Decision<Submission, Standing<'a>>, RuleRefusal>
    ensures { result ≡ fresh fixed.now now team (record { count = count; last = last; standing = None }) problem language wanted }
{
    if !takes_submissions(fixed, now) {
        return Err(RuleRefusal::NotOpen);
    }
    if count >= TEAM_SUBMISSIONS {
        return Err(RuleRefusal::TeamLimit);
    }
    Ok(Decision::Add(Submission {
        team,
        number: count + 1,
        time: later(last, now),
        problem,
        language,
        entry_point: wanted.entry_point,
        file: wanted.file,
        key: wanted.key,
    }))
}

// Whether the language at a place requires an entry point that isn't given.
fn lacks_entry_point(fixed: &Fixed, language: usize, entry_point: &Option<Name>) -> bool
    ensures { result ≡ lacks_entry_point fixed.now language entry_point.now }
{
    match fixed.settings.languages().get(language) {
        Some(language) => language.entry_point_required && entry_point.is_none(),
        None => false,
    }
}

/// Whether a submission was posted with this idempotency key.
pub fn has_key(submission: &Submission, key: &Id) -> bool
    ensures { result ≡ has_key key.now submission.now }
{
    match &submission.key {
        Some(own) => own == key,
        None => false,
    }
}

// Whether a submission that stands is what is asked for.
fn asks_the_same(
    standing: &Standing<'_>,
    problem: usize,
    language: usize,
    wanted: &WantedSubmission,
) -> bool
    ensures { result ≡ asks_the_same standing.now problem language wanted.now }
{
    standing.submission.problem == problem
        && standing.submission.language == language
        && standing.submission.entry_point == wanted.entry_point
        && standing.file == wanted.file.as_slice()
}

// Whether submissions are accepted now.
fn takes_submissions(fixed: &Fixed, now: Moment) -> bool
    ensures { result ≡ takes_submissions fixed.now now }
{
    phase(&fixed.marks, &fixed.settings, now) == Phase::Running && fixed.marks.finalized.is_none()
}

// Now, or the time of the team's last submission where that is later.
fn later(last: Option<Moment>, now: Moment) -> Moment
    ensures { result ≡ later last now }
{
    match last {
        Some(last) if last > now => last,
        Some(_) | None => now,
    }
}
