//! What the submissions and judgements of a feed say.
ghost use Rattle.std.specs.Prelude.{◌≡◌, IfOk, IfErr, codes};
ghost use Rattle.contest_files.specs.JsonMembers.{optional_id_in};
ghost use Rattle.serde_json.specs.View.{view};

use crate::feed_object::{FeedObject, flag_or_true, optional_time_in, time_in};
use contest_files::{id_member, optional_id_in};
use contest_types::{Id, Refusal, RelTime};
use serde_json::Value;
use std::alloc::Global;

/// What a submission says beside its id.
#[derive(Drop)]
pub struct FeedSubmission {
    /// The id of its team.
    pub team: Id,
    /// The id of its problem.
    pub problem: Id,
    /// When it was submitted, which may be before the start or after the end.
    pub time: RelTime,
}

/// What a judgement says beside its id.
#[derive(Drop)]
pub struct FeedJudgement {
    /// The id of its submission.
    pub submission: Id,
    /// The id of its judgement type, once it is judged.
    pub verdict: Option<Id>,
    /// When it ended, if it says so.
    pub ended: Option<RelTime>,
    /// Whether it counts: neither `valid` nor `current` is false.
    pub counts: bool,
}

impl FeedObject for FeedSubmission {
    ghost use Rattle.contest_feed_reader.specs.Objects.{submission_members};

    ghost members = { submission_members };

    fn read(alloc: Global, object: &Value) -> Result<Option<FeedSubmission>, Refusal> {
        let Some(time) = time_in(object, "contest_time") else {
            return Ok(None);
        };
        let Some(team) = id_member(alloc, object, "team_id")? else {
            return Ok(None);
        };
        let Some(problem) = id_member(alloc, object, "problem_id")? else {
            return Ok(None);
        };
        Ok(Some(FeedSubmission {
            team,
            problem,
            time,
        }))
    }
}

impl FeedObject for FeedJudgement {
    ghost use Rattle.contest_feed_reader.specs.Objects.{judgement_members};

    ghost members = { judgement_members };

    fn read(alloc: Global, object: &Value) -> Result<Option<FeedJudgement>, Refusal> {
        let Some(valid) = flag_or_true(object, "valid") else {
            return Ok(None);
        };
        let Some(current) = flag_or_true(object, "current") else {
            return Ok(None);
        };
        let Some(ended) = optional_time_in(object, "end_contest_time") else {
            return Ok(None);
        };
        let Some(submission) = id_member(alloc, object, "submission_id")? else {
            return Ok(None);
        };
        let Some(verdict) = verdict_in(alloc, object)? else {
            return Ok(None);
        };
        Ok(Some(FeedJudgement {
            submission,
            verdict,
            ended,
            counts: valid && current,
        }))
    }
}

// The id of a judgement's type, which need not be there, if it is on its form.
fn verdict_in(alloc: Global, object: &Value) -> Result<Option<Option<Id>>, Refusal>
    ensures value { IfOk result (λ found. found ≡ optional_id_in (codes "judgement_type_id") (view object.now)) }
    ensures err { IfErr result (λ e. e ≡ Refusal.Memory) }
{
    match optional_id_in(alloc, object, "judgement_type_id") {
        Ok(id) => Ok(Some(id)),
        Err(Refusal::Malformed) => Ok(None),
        Err(refusal) => Err(refusal),
    }
}
