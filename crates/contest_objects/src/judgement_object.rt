//! Judgements as they are served.
ghost use Rattle.std.specs.Prelude.{OnOk};
ghost use Rattle.serde_json.specs.Data.{object};
ghost use Rattle.contest_objects.specs.JsonTokens.{Wrote, data_tokens};
ghost use Rattle.contest_objects.specs.JudgementObjects.{judgement_members};

use crate::json_text::{Served, begin_object, end_object};
use crate::members::{Member, write_member};
use crate::visible_ids::{judgement_id, submission_id};
use contest_types::{Fixed, Moment, Release};
use json::Writer;
use std::alloc::AllocError;

/// The judgement that a release is on a submission (Contest API 2023-06, judgement object):
/// `end_contest_time`, `end_time`, `id`, `judgement_type_id`, `start_contest_time`, `start_time` and
/// `submission_id`. It starts and ends when it is released.
#[derive(Clone, Copy)]
pub struct JudgementObject<'a> {
    /// The contest's settings and marks.
    pub fixed: &'a Fixed,
    /// The place of the submission's team, from 0.
    pub team: usize,
    /// The submission's number, from 1.
    pub number: usize,
    /// The release.
    pub release: &'a Release,
}

/// What stands in a judgement's members.
#[derive(Drop)]
struct Members<'a> {
    id: &'a str,
    judgement_type: &'a str,
    start: &'a Option<Moment>,
    submission: &'a str,
    time: &'a Moment,
}

impl<'a> Served for JudgementObject<'a> {
    ghost use Rattle.contest_types.specs.Sight.{judgement_of};
    ghost use Rattle.contest_objects.specs.JudgementObjects.{judgement_data};

    ghost value = { λ o. judgement_data o.fixed.now o.team o.number (judgement_of o.release.now) };

    fn write(&self, out: &mut Writer) -> Result<(), AllocError> {
        let id = judgement_id(self.team, self.number, self.release.round);
        let submission = submission_id(self.team, self.number);
        let members = Members {
            id: id.as_str(),
            judgement_type: self.fixed.settings.judgement_type_id(self.release.verdict),
            start: &self.fixed.marks.start,
            submission: submission.as_str(),
            time: &self.release.time,
        };
        write_judgement(out, members)
    }
}

// The object with these members, one by one: a list has many of them, and this is faster than a
// table of members.
fn write_judgement(out: &mut Writer, members: Members<'_>) -> Result<(), AllocError>
    ensures { OnOk result (Wrote out.old out.new (data_tokens (object (judgement_members members.entry.id.now members.entry.judgement_type.now members.entry.start.now members.entry.submission.now members.entry.time.now)))) }
{
    let contest_time = Member::ContestTime(members.start, members.time);
    let time = Member::Time(members.time);
    begin_object(out)?;
    write_member(out, "end_contest_time", contest_time)?;
    write_member(out, "end_time", time)?;
    write_member(out, "id", Member::Text(members.id))?;
    write_member(
        out,
        "judgement_type_id",
        Member::Text(members.judgement_type),
    )?;
    write_member(out, "start_contest_time", contest_time)?;
    write_member(out, "start_time", time)?;
    write_member(out, "submission_id", Member::Text(members.submission))?;
    end_object(out)
}
