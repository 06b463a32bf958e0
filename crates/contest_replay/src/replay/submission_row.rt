//! What a submission's record names.
ghost use Rattle.std.specs.Prelude.{◌≡◌, ◌<◌, ◌≤◌, IfSome, length};
ghost use Rattle.contest_types.specs.IdText.{is_id};
ghost use Rattle.contest_types.specs.declared.limits.TheConstants.{TEAMS, PROBLEMS};
ghost use Rattle.contest_types.specs.declared.limits.TheConstants.{JUDGEMENT_TYPES};
ghost use Rattle.contest_types.specs.declared.limits.TheConstants.{LONGEST_CONTEST};
ghost use Rattle.contest_replay.specs.ReplayLists.{refs_of, verdict_place, names_ids};
ghost use Rattle.contest_replay.specs.ReplayLists.{reference_fault};
ghost use Rattle.contest_replay.specs.ReplayState.{AreThere};

use super::record::ReplayRecord;
use contest_score::JudgedSubmission;
use contest_types::{Cause, Moment, Settings, is_id};

/// The places of a submission's team, problem and judgement type in the settings, from 0.
#[derive(Clone, Copy)]
pub(crate) struct SubmissionRefs {
    pub(crate) team: usize,
    pub(crate) problem: usize,
    pub(crate) verdict: Option<usize>,
}

impl SubmissionRefs {
    /// A submission there at a time, in milliseconds from moment 0 on.
    pub(crate) fn submission(self, time: u64) -> JudgedSubmission
        requires team { self.team < TEAMS }
        requires problem { self.problem < PROBLEMS }
        requires verdict { IfSome self.verdict (λ place. place < JUDGEMENT_TYPES) }
        requires time { time ≤ LONGEST_CONTEST }
        ensures { result ≡ record { team = self.team; problem = self.problem; time = time; verdict = self.verdict } }
    {
        JudgedSubmission {
            team: self.team as u32,
            problem: self.problem as u32,
            time: moment_at(time),
            verdict: match self.verdict {
                Some(place) => Some(place as u32),
                None => None,
            },
        }
    }
}

/// The moment so many milliseconds after moment 0.
fn moment_at(time: u64) -> Moment
    requires { time ≤ LONGEST_CONTEST }
    ensures { result ≡ time }
{
    match Moment::from_milliseconds(time) {
        Some(moment) => moment,
        None => unreachable!(),
    }
}

/// The places that a submission's record names, where all are there.
pub(crate) fn refs_in(settings: &Settings, fields: &ReplayRecord<'_>) -> Option<SubmissionRefs>
    ensures value { result ≡ refs_of settings.now fields.now }
    ensures there { IfSome result (AreThere settings.now) }
{
    Some(SubmissionRefs {
        team: settings.team_place(fields.id)?,
        problem: settings.problem_place(fields.f1)?,
        verdict: verdict_place(settings, fields.f3)?,
    })
}

/// The place of a judgement type, or nothing for no verdict.
fn verdict_place(settings: &Settings, field: &[u8]) -> Option<Option<usize>>
    ensures value { result ≡ verdict_place settings.now field.now }
    ensures there { IfSome result (λ verdict. IfSome verdict (λ place. place < length settings.now.types)) }
{
    if field.is_empty() {
        return Some(None);
    }
    Some(Some(settings.judgement_type_place(field)?))
}

/// Why a record names no places: a text that isn't an id, or one that isn't there.
pub(crate) fn reference_fault(fields: &ReplayRecord<'_>) -> Cause
    ensures { result ≡ reference_fault fields.now }
{
    if names_ids(fields) {
        Cause::UnknownReference
    } else {
        Cause::Malformed
    }
}

/// Whether a record's team, problem and judgement type, if there is one, are ids.
fn names_ids(fields: &ReplayRecord<'_>) -> bool
    ensures { result ≡ names_ids fields.now }
{
    is_id(fields.id) && is_id(fields.f1) && (fields.f3.is_empty() || is_id(fields.f3))
}
