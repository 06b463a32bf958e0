//! What everybody is served of the contest as a whole.
ghost use Rattle.std.specs.Prelude.{OnOk, ◌≡◌};
ghost use Rattle.contest_objects.specs.ContestObjects.{state_data};
ghost use Rattle.contest_objects.specs.JsonTokens.{Wrote, data_tokens};

use crate::json_text::{Served, begin_array, end_array};
use crate::members::{Member, write_object};
use crate::state_object::{StateTimes, state_times};
use contest_types::{ContestHead, Fixed, Marks, Moment, Settings, TimeSpan};
use json::Writer;
use std::alloc::AllocError;

/// What is read of the contest as a whole (Contest API 2023-06, contests and contest state).
#[derive(Clone, Copy)]
pub enum ContestEndpoint {
    /// The array of the one contest.
    Contests,
    /// The contest.
    Contest,
    /// The state of its clock.
    State,
}

/// What everybody is served of it at a moment: it goes by the settings and the marks alone.
#[derive(Clone, Copy)]
pub struct WholeContest<'a> {
    /// The contest's settings and marks.
    pub fixed: &'a Fixed,
    /// The moment.
    pub now: Moment,
    /// What is read.
    pub endpoint: ContestEndpoint,
}

impl<'a> Served for WholeContest<'a> {
    ghost use Rattle.contest_objects.specs.ContestObjects.{whole_data};

    ghost value = { λ o. whole_data o.endpoint o.fixed.now o.now };

    fn write(&self, out: &mut Writer) -> Result<(), AllocError> {
        let (settings, marks) = (&self.fixed.settings, &self.fixed.marks);
        let contest = ContestObject::of(settings, marks);
        match self.endpoint {
            ContestEndpoint::Contests => {
                begin_array(out)?;
                contest.write(out)?;
                end_array(out)
            }
            ContestEndpoint::Contest => contest.write(out),
            ContestEndpoint::State => {
                let now = self.now;
                let state = StateObject {
                    settings,
                    marks,
                    now,
                };
                state.write(out)
            }
        }
    }
}

/// The contest as long as it runs, with these marks of its clock: `duration`, `id`, `name`,
/// `penalty_time` in minutes, `scoreboard_freeze_duration`, `scoreboard_thaw_time`,
/// `scoreboard_type` and `start_time`.
#[derive(Clone, Copy)]
pub struct ContestObject<'a> {
    /// The contest's head, whose duration and freeze duration may be others.
    pub head: &'a ContestHead,
    /// How long it runs.
    pub duration: TimeSpan,
    /// How long before its end the scoreboard freezes; none: it never does.
    pub freeze: Option<TimeSpan>,
    /// The marks of its clock.
    pub marks: &'a Marks,
}

impl<'a> ContestObject<'a> {
    /// The contest as long as its settings say, with these marks of its clock.
    pub fn of(settings: &'a Settings, marks: &'a Marks) -> ContestObject<'a>
        ensures head { result.head.now ≡ settings.now.head }
        ensures duration { result.duration ≡ settings.now.head.duration }
        ensures freeze { result.freeze ≡ settings.now.head.freeze }
        ensures marks { result.marks.now ≡ marks.now }
    {
        let head = settings.head();
        ContestObject {
            head,
            duration: head.duration,
            freeze: head.freeze,
            marks,
        }
    }
}

impl<'a> Served for ContestObject<'a> {
    ghost use Rattle.contest_types.specs.State.{lasting};
    ghost use Rattle.contest_objects.specs.ContestObjects.{contest_data};

    ghost value = { λ o. contest_data (lasting o.head.now o.duration o.freeze) o.marks.now };

    fn write(&self, out: &mut Writer) -> Result<(), AllocError> {
        let (head, marks) = (self.head, self.marks);
        write_object(
            out,
            &[
                ("duration", Member::Span(&self.duration)),
                ("id", Member::Text(head.id.as_str())),
                ("name", Member::Text(head.name.as_str())),
                ("penalty_time", Member::Number(u64::from(head.penalty_time))),
                (
                    "scoreboard_freeze_duration",
                    Member::SpanOrNull(&self.freeze),
                ),
                ("scoreboard_thaw_time", Member::TimeOrNull(&marks.thaw)),
                ("scoreboard_type", Member::Text("pass-fail")),
                ("start_time", Member::TimeOrNull(&marks.start)),
            ],
        )
    }
}

/// The state of its clock with these marks, at a moment: `end_of_updates`, `ended`, `finalized`,
/// `frozen`, `started` and `thawed`.
#[derive(Clone, Copy)]
pub struct StateObject<'a> {
    /// The contest's settings.
    pub settings: &'a Settings,
    /// The marks of its clock.
    pub marks: &'a Marks,
    /// The moment.
    pub now: Moment,
}

impl<'a> Served for StateObject<'a> {
    ghost use Rattle.contest_objects.specs.ContestObjects.{state_data};
    ghost use Rattle.contest_objects.specs.StateObject.{state_times};

    ghost value = { λ o. state_data (state_times o.settings.now o.marks.now o.now) };

    fn write(&self, out: &mut Writer) -> Result<(), AllocError> {
        let times = state_times(self.settings, self.marks, self.now);
        write_times(out, &times)
    }
}

// The state with these moments.
fn write_times(out: &mut Writer, times: &StateTimes) -> Result<(), AllocError>
    ensures { OnOk result (Wrote out.old out.new (data_tokens (state_data times.now))) }
{
    write_object(
        out,
        &[
            ("end_of_updates", Member::TimeOrNull(&times.end_of_updates)),
            ("ended", Member::TimeOrNull(&times.ended)),
            ("finalized", Member::TimeOrNull(&times.finalized)),
            ("frozen", Member::TimeOrNull(&times.frozen)),
            ("started", Member::TimeOrNull(&times.started)),
            ("thawed", Member::TimeOrNull(&times.thawed)),
        ],
    )
}
