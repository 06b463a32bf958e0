//! The contest of a replay file.
ghost use Rattle.std.specs.Prelude.{◌≡◌, ◌<◌, ◌^◌, Bool, true, All, length, nat_le};
ghost use Rattle.contest_types.specs.Valid.{is_valid};
ghost use Rattle.contest_score.specs.MaskedCells.{IsAdmitted};
ghost use Rattle.contest_replay.specs.ReplayContest.{replay_contest, marks_for, up_to};
ghost use Rattle.contest_replay.specs.ReplayState.{IsReplay};

use contest_score::JudgedSubmission;
use contest_types::{Marks, Moment, Settings, TimeSpan};
use std::marker::Model;

/// The contest of a replay file, which is a valid one. Its start is moment 0, and each verdict is
/// released at its submission's time. Contracts see the settings and the submissions.
#[derive(Drop)]
pub struct ReplayContest {
    settings: Settings,
    submissions: Vec<JudgedSubmission>,
}

impl Model for ReplayContest {
    ghost use Rattle.contest_replay.specs.ReplayLists.{ReplayLists};
    ghost use Rattle.contest_replay.specs.ReplayState.{IsReplay};

    ghost Value = { ReplayLists };

    ghost view = { λ r. record { settings = r.settings; submissions = r.submissions.items } };

    ghost invariant = { λ r. IsReplay r.settings r.submissions.items };
}

impl ReplayContest {
    /// The contest of these settings and submissions, which are those of a valid contest.
    pub fn new(settings: Settings, submissions: Vec<JudgedSubmission>) -> ReplayContest
        requires { IsReplay settings submissions.items }
        ensures same { result ≡ record { settings = settings; submissions = submissions.items } }
        ensures valid { (thawed : Bool) → is_valid (replay_contest settings (marks_for settings thawed) submissions.items) ≡ true }
    {
        ReplayContest {
            settings,
            submissions,
        }
    }

    /// What the contest is set up with.
    pub fn settings(&self) -> &Settings
        ensures { result.now ≡ self.now.settings }
    {
        &self.settings
    }

    /// The contest's marks: it starts at moment 0 and, if it is `thawed`, it is so from its end on.
    pub fn marks(&self, thawed: bool) -> Marks
        ensures { result ≡ marks_for self.now.settings thawed }
    {
        let end = Moment::from_time_span(self.settings.head().duration);
        Marks {
            start: Some(Moment::from_time_span(TimeSpan::ZERO)),
            thaw: if thawed { Some(end) } else { None },
            finalized: None,
        }
    }

    /// The contest's submissions in the order of the file, which can be scored, thawed or not.
    pub fn submissions(&self) -> &[JudgedSubmission]
        ensures value { result.now ≡ self.now.submissions }
        ensures few { length result.now < 2 ^ 32 }
        ensures admitted { (thawed : Bool) → All (IsAdmitted self.now.settings (marks_for self.now.settings thawed)) result.now }
        ensures valid { (thawed : Bool) → is_valid (replay_contest self.now.settings (marks_for self.now.settings thawed) result.now) ≡ true }
    {
        self.submissions.as_slice()
    }

    /// Leaves out the submissions after a moment.
    pub fn retain_until(&mut self, now: Moment)
        ensures { self.new ≡ record self.old { submissions = up_to now self.old.submissions } }
    {
        self.submissions
            .retain(|submission| is_up_to(now, submission));
    }
}

fn is_up_to(now: Moment, submission: &JudgedSubmission) -> bool
    ensures { result ≡ nat_le submission.now.time now }
{
    submission.time.milliseconds() <= now.milliseconds()
}
