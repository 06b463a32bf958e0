//! The verdicts that judges ask for: which submission and which judgement type each names.
ghost use Rattle.std.specs.Prelude.{◌≡◌};
ghost use Rattle.std.specs.Option.{option_map};
ghost use Rattle.contest_types.specs.State.{of_submission};
ghost use Rattle.contest_rules.specs.Verdicts.{first_release, verdict_on};

use contest_types::{Fixed, Id, Moment, Release, Submission};

/// The verdict that a judge asks for.
#[derive(Drop)]
pub struct WantedVerdict {
    /// The id of the submission.
    pub submission: Id,
    /// The id of the judgement type.
    pub judgement_type: Id,
}

/// What it names.
#[derive(Clone, Copy)]
pub struct NamedVerdict {
    /// The place of the submission's team, from 0.
    pub team: usize,
    /// The submission's number, from 1.
    pub number: usize,
    /// The place of the judgement type, from 0.
    pub verdict: usize,
}

/// What a verdict for a submission names; none where the submission or the judgement type isn't
/// there.
pub fn verdict_on(
    fixed: &Fixed,
    submission: Option<&Submission>,
    wanted: &WantedVerdict,
) -> Option<NamedVerdict>
    ensures { result ≡ verdict_on fixed.now (option_map of_submission (option_map (λ s. s.now) submission.entry)) wanted.now }
{
    let submission = submission?;
    let verdict = fixed
        .settings
        .judgement_type_place(wanted.judgement_type.as_bytes())?;
    Some(NamedVerdict {
        team: submission.team,
        number: submission.number,
        verdict,
    })
}

/// The first release on a submission.
pub(crate) fn first_release(now: Moment, named: NamedVerdict) -> Release
    ensures { result ≡ first_release now named }
{
    Release {
        team: named.team,
        number: named.number,
        round: 1,
        verdict: named.verdict,
        time: now,
    }
}
