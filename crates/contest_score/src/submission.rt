//! Submissions as scoring reads them.
ghost use Rattle.std.specs.Prelude.{◌≡◌, ◌↔◌, ◌<◌, IsTrue, IfSome, All};
ghost use Rattle.contest_score.specs.MaskedCells.{IsAdmitted};

use contest_types::{Marks, Moment, Settings, has_come};

/// A submission with the last verdict that was released on it. Team, problem and judgement type go
/// by their places in the settings, from 0.
#[derive(Clone, Copy, PartialEq, Eq)]
pub struct JudgedSubmission {
    /// The place of its team.
    pub team: u32,
    /// The place of its problem.
    pub problem: u32,
    /// When it counts as submitted.
    pub time: Moment,
    /// The place of the judgement type that was released last; none where it is pending.
    pub verdict: Option<u32>,
}

/// Whether each submission names a team, a problem and a judgement type that are there, and isn't
/// before the start, which is then set.
pub fn are_admitted(settings: &Settings, marks: &Marks, submissions: &[JudgedSubmission]) -> bool
    ensures { IsTrue result ↔ All (IsAdmitted settings.now marks.now) submissions.now }
{
    submissions
        .iter()
        .all(|submission| is_admitted(settings, marks, submission))
}

fn is_admitted(settings: &Settings, marks: &Marks, submission: &JudgedSubmission) -> bool
    ensures { IsTrue result ↔ IsAdmitted settings.now marks.now submission.now }
{
    (submission.team as usize) < settings.teams().len()
        && (submission.problem as usize) < settings.problems().len()
        && is_place(submission.verdict, settings.judgement_types().len())
        && has_come(marks.start, submission.time)
}

/// Whether a place, where there is one, is below a number.
fn is_place(place: Option<u32>, number: usize) -> bool
    ensures { IsTrue result ↔ IfSome place (λ p. p < number) }
{
    match place {
        None => true,
        Some(place) => (place as usize) < number,
    }
}
