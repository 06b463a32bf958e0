//! Submissions as they are served.
ghost use Rattle.std.specs.Prelude.{◌≡◌, ◌≤◌, None, OnOk, Some, if◌then◌else◌, length};
ghost use Rattle.std.specs.Prelude.{option_map};
ghost use Rattle.serde_json.specs.Data.{object, string};
ghost use Rattle.contest_types.specs.MomentText.{moment_text};
ghost use Rattle.contest_objects.specs.JsonTokens.{Wrote, data_tokens};
ghost use Rattle.contest_objects.specs.Members.{shown as shown_as};
ghost use Rattle.contest_objects.specs.Objects.{file_array, files_path, submission_members};
ghost use Rattle.contest_objects.specs.Times.{contest_time_data};

use crate::json_text::{Served, begin_object, end_object};
use crate::members::{Member, write_member};
use crate::visible_ids::submission_id;
use arrayvec::ArrayString;
use contest_types::{Audience, Fixed, Id, Moment, Name, Submission, knows_all_of};
use json::Writer;
use std::alloc::AllocError;

/// Room for the longest path of a file.
const PATH: usize = 256;

/// A submission that an audience sees (Contest API 2023-06, submission object): `contest_time`,
/// `id`, `language_id`, `problem_id`, `team_id` and `time`; for the team itself and the jury also
/// `files`, and `entry_point` where one was given.
#[derive(Clone, Copy)]
pub struct SubmissionObject<'a> {
    /// The contest's settings and marks.
    pub fixed: &'a Fixed,
    /// Who sees it.
    pub audience: Audience,
    /// The submission.
    pub submission: &'a Submission,
}

/// What stands in a submission's members.
#[derive(Drop)]
struct Members<'a> {
    entry_point: Member<'a>,
    files: Member<'a>,
    id: &'a str,
    language: &'a str,
    problem: &'a str,
    start: &'a Option<Moment>,
    team: &'a str,
    time: &'a Moment,
}

impl<'a> Served for SubmissionObject<'a> {
    ghost use Rattle.contest_types.specs.Sight.{program_for};
    ghost use Rattle.contest_objects.specs.Objects.{submission_data};

    ghost value = { λ o. submission_data o.fixed.now o.submission.now.team o.submission.now.number o.submission.now.time
        o.submission.now.problem o.submission.now.language (program_for o.audience o.submission.now) };

    fn write(&self, out: &mut Writer) -> Result<(), AllocError> {
        let (settings, submission) = (&self.fixed.settings, self.submission);
        let shown = knows_all_of(self.audience, submission.team);
        let id = submission_id(submission.team, submission.number);
        let path = files_path(&settings.head().id, id.as_str());
        let members = Members {
            entry_point: entry_point_where(shown, &submission.entry_point),
            files: file_where(shown, path.as_str()),
            id: id.as_str(),
            language: settings.language_id(submission.language),
            problem: settings.problem_id(submission.problem),
            start: &self.fixed.marks.start,
            team: settings.team_id(submission.team),
            time: &submission.time,
        };
        write_submission(out, members)
    }
}

// The object with these members, one by one: a list has many of them, and this is faster than a
// table of members.
fn write_submission(out: &mut Writer, members: Members<'_>) -> Result<(), AllocError>
    ensures { OnOk result (Wrote out.old out.new (data_tokens (object (submission_members (contest_time_data members.entry.start.now members.entry.time.now) (shown_as members.entry.entry_point)
        (shown_as members.entry.files) members.entry.id.now members.entry.language.now members.entry.problem.now members.entry.team.now (string (moment_text members.entry.time.now)))))) }
{
    let contest_time = Member::ContestTime(members.start, members.time);
    begin_object(out)?;
    write_member(out, "contest_time", contest_time)?;
    write_member(out, "entry_point", members.entry_point)?;
    write_member(out, "files", members.files)?;
    write_member(out, "id", Member::Text(members.id))?;
    write_member(out, "language_id", Member::Text(members.language))?;
    write_member(out, "problem_id", Member::Text(members.problem))?;
    write_member(out, "team_id", Member::Text(members.team))?;
    write_member(out, "time", Member::Time(members.time))?;
    end_object(out)
}

// The entry point, where one was given and is shown.
fn entry_point_where(shown: bool, entry_point: &Option<Name>) -> Member<'_>
    ensures { shown_as result ≡ (if shown then option_map string entry_point.now else None) }
{
    match entry_point {
        Some(entry_point) if shown => Member::Text(entry_point.as_str()),
        _ => Member::Absent,
    }
}

// The array of the one file, where it is shown.
fn file_where(shown: bool, path: &str) -> Member<'_>
    ensures { shown_as result ≡ (if shown then Some (file_array path.now) else None) }
{
    if shown {
        Member::File(path)
    } else {
        Member::Absent
    }
}

// Where the file of the submission with an id is served.
fn files_path(contest: &Id, id: &str) -> ArrayString<PATH>
    requires { length id.now ≤ 160 }
    ensures { result.bytes ≡ files_path contest.now id.now }
{
    let mut path = ArrayString::new();
    path.push_str("contests/");
    path.push_str(contest.as_str());
    path.push_str("/submissions/");
    path.push_str(id);
    path.push_str("/files");
    path
}
