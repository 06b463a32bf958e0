//! Who sees what: teams, submissions and their verdicts.
ghost use Rattle.std.specs.Prelude.{◌≡◌};
ghost use Rattle.contest_types.specs.Masks.{knows_all_of, mask_for, verdict_under};
ghost use Rattle.contest_types.specs.Sight.{hears, hears_group, last_judgement, seen_verdict};
ghost use Rattle.contest_types.specs.Sight.{sees_clarification, sees_submission, sees_team};
ghost use Rattle.contest_types.specs.Sight.{type_of};
ghost use Rattle.contest_types.specs.State.{ContestState};
ghost use Rattle.contest_types.specs.TeamPlaces.{is_of_group, is_public};

use crate::{
    Addressee, Audience, Clarification, Marks, Moment, Settings, Submission, is_frozen, is_thawed,
};

/// Whether the team at a place, from 0, isn't hidden. It takes no memory.
pub fn is_public(settings: &Settings, team: usize) -> bool
    ensures { result ≡ is_public settings.now team }
{
    match settings.teams().get(team) {
        Some(team) => !team.hidden,
        None => false,
    }
}

/// Whether the team at a place, from 0, is in the group at a place, from 0. It takes no memory.
pub fn is_of_group(settings: &Settings, group: usize, team: usize) -> bool
    ensures { result ≡ is_of_group settings.now group team }
{
    match settings.teams().get(team) {
        Some(team) => team.groups.as_slice().contains(&group),
        None => false,
    }
}

/// Whether a caller always sees all of what belongs to the team at a place, from 0: the jury and
/// the team itself do. It takes no memory.
pub fn knows_all_of(audience: Audience, team: usize) -> bool
    ensures { result ≡ knows_all_of audience team }
{
    match audience {
        Audience::Public => false,
        // Numbers of teams count from 1.
        Audience::Team(number) => number > team && number - 1 == team,
        Audience::Jury => true,
    }
}

/// Whether a caller sees the submissions of the team at a place, from 0. It takes no memory.
pub fn sees_team(audience: Audience, settings: &Settings, team: usize) -> bool
    ensures { result ≡ sees_team audience settings.now team }
{
    knows_all_of(audience, team) || is_public(settings, team)
}

/// Whether a caller sees a team's submissions: the jury sees all, a team its own, and anyone those
/// of a team that isn't hidden (own: the Contest API 2023-06 takes a hidden team off the
/// scoreboard, and says no more). It takes no memory.
pub fn sees_submission(audience: Audience, settings: &Settings, submission: &Submission) -> bool
    ensures { (x : ContestState) → x.fixed.settings ≡ settings.now → result ≡ sees_submission audience x submission.now }
{
    sees_team(audience, settings, submission.team)
}

/// Whether a caller hears what goes to the group at a place, from 0: the jury and each team that is
/// in it do. It takes no memory.
fn hears_group(audience: Audience, settings: &Settings, group: usize) -> bool
    ensures { result ≡ hears_group audience settings.now group }
{
    match audience {
        Audience::Public => false,
        // Numbers of teams count from 1.
        Audience::Team(number) => number > 0 && is_of_group(settings, group, number - 1),
        Audience::Jury => true,
    }
}

/// Whether a caller hears what belongs to an addressee: what is to all, what is to a group that it
/// is in, and all of a team that it knows all of; the jury hears all. It takes no memory.
pub fn hears(audience: Audience, settings: &Settings, addressee: Addressee) -> bool
    ensures { result ≡ hears audience settings.now addressee }
{
    match addressee {
        Addressee::All => true,
        Addressee::Group(group) => hears_group(audience, settings, group),
        Addressee::Team(team) => knows_all_of(audience, team),
    }
}

/// Whether a caller hears a clarification: who hears what belongs to its addressee does. It takes
/// no memory.
pub fn sees_clarification(
    audience: Audience,
    settings: &Settings,
    clarification: &Clarification,
) -> bool
    ensures { result ≡ sees_clarification audience settings.now clarification.now }
{
    hears(audience, settings, clarification.addressee)
}

/// Which of a team's verdicts are seen.
#[derive(Clone, Copy, PartialEq, Eq)]
pub enum Mask {
    /// The verdicts on submissions from before the freeze.
    Held,
    /// All verdicts.
    Full,
}

/// What a caller sees now of the verdicts of the team at a place, from 0: all where the caller is
/// the jury or that team, or where the contest is thawed; else those on submissions from before the
/// freeze (DOMjudge manual, "Scoreboard"). It takes no memory.
pub fn mask_for(audience: Audience, marks: &Marks, now: Moment, team: usize) -> Mask
    ensures { result ≡ mask_for audience marks.now now team }
{
    if knows_all_of(audience, team) || is_thawed(marks, now) {
        Mask::Full
    } else {
        Mask::Held
    }
}

/// The verdict that is seen on a submission of this time, of the one that was released last: the
/// place of its judgement type, from 0. None where nothing was released, or where the mask holds
/// verdicts back and the submission is frozen. It takes no memory.
pub fn verdict_under(
    mask: Mask,
    settings: &Settings,
    marks: &Marks,
    time: Moment,
    verdict: Option<usize>,
) -> Option<usize>
    ensures { result ≡ verdict_under mask settings.now marks.now time verdict }
{
    match mask {
        Mask::Full => verdict,
        Mask::Held => {
            if is_frozen(settings, marks, time) {
                None
            } else {
                verdict
            }
        }
    }
}

/// The verdict that a caller sees now on a submission, of the one that was released last: the place
/// of its judgement type, from 0. None where nothing was released, where the submission isn't seen,
/// or where it is frozen and its verdicts are held back from the caller. It takes no memory.
pub fn seen_verdict(
    audience: Audience,
    settings: &Settings,
    marks: &Marks,
    now: Moment,
    submission: &Submission,
    released: Option<usize>,
) -> Option<usize>
    ensures { (x : ContestState) → x.fixed.settings ≡ settings.now → x.fixed.marks ≡ marks.now
        → type_of (last_judgement x submission.now) ≡ released
        → result ≡ seen_verdict audience now x submission.now }
{
    if !sees_submission(audience, settings, submission) {
        return None;
    }
    let mask = mask_for(audience, marks, now, submission.team);
    verdict_under(mask, settings, marks, submission.time, released)
}
