//! A contest as the records of a replay build it up.
ghost use Rattle.std.specs.Prelude.{◌≡◌, ◌<◌, ◌≤◌, ◌∷◌, [], Bool, true, Ok, IfOk, IfErr, OnOk};
ghost use Rattle.std.specs.Prelude.{length};
ghost use Rattle.contest_types.specs.Additions.{IsFaultOf};
ghost use Rattle.contest_types.specs.Valid.{is_valid};
ghost use Rattle.contest_replay.specs.ReplayLists.{any_language, lists_of_head, with_type_row};
ghost use Rattle.contest_replay.specs.ReplayLists.{with_problem_row, with_team_row};
ghost use Rattle.contest_replay.specs.ReplayLists.{with_submission, submission_addition, within};
ghost use Rattle.contest_replay.specs.ReplayContest.{replay_contest, marks_for};
ghost use Rattle.contest_replay.specs.ReplayState.{AreThere};

use super::contest::ReplayContest;
use super::record::ReplayRecord;
use super::submission_row::{SubmissionRefs, reference_fault, refs_in};
use super::team_progress::TeamProgress;
use contest_score::JudgedSubmission;
use contest_types::{
    Cause, ContestHead, Id, JudgementType, Language, Name, Problem, Refusal, RelTime, RowFault,
    Settings, Team, TimeSpan, limits,
};
use std::alloc::Global;
use std::marker::Model;

/// The contest of the records that were taken so far. Contracts see the settings and the
/// submissions.
#[derive(Drop)]
pub(crate) struct ReplayBuilder {
    settings: Settings,
    submissions: Vec<JudgedSubmission>,
    teams: Vec<TeamProgress>,
}

impl Model for ReplayBuilder {
    ghost use Rattle.contest_replay.specs.ReplayLists.{ReplayLists};
    ghost use Rattle.contest_replay.specs.ReplayState.{IsReplayed};

    ghost Value = { ReplayLists };

    ghost view = { λ r. record { settings = r.settings; submissions = r.submissions.items } };

    ghost invariant = { λ r. IsReplayed r.settings r.submissions.items r.teams.items };
}

/// The one language of a replay.
fn any_language(alloc: Global) -> Result<Language, RowFault>
    ensures ok { IfOk result (λ language. language ≡ any_language) }
    ensures err { IfErr result (λ e. e ≡ RowFault.Memory) }
{
    let id = match Id::parse(alloc, "any") {
        Ok(Some(id)) => id,
        Ok(None) => unreachable!(),
        Err(refusal) => return Err(memory_of(refusal)),
    };
    let name = match Name::parse(alloc, "any") {
        Ok(Some(name)) => name,
        Ok(None) => unreachable!(),
        Err(refusal) => return Err(memory_of(refusal)),
    };
    Ok(Language::new(id, name))
}

/// Adds the one language of a replay to settings in which none stands yet.
///
/// # Errors
///
/// Want of memory alone.
pub fn add_any_language(alloc: Global, settings: &mut Settings) -> Result<(), RowFault>
    requires { settings.old.languages ≡ [] }
    ensures ok { OnOk result (settings.new ≡ record settings.old { languages = any_language ∷ [] }) }
    ensures err { IfErr result (λ e. e ≡ RowFault.Memory) }
{
    let language = any_language(alloc)?;
    settings.add_language(alloc, language)?;
    Ok(())
}

/// Want of memory, as a row's fault.
pub(crate) fn memory_of(refusal: Refusal) -> RowFault
    requires { refusal ≡ Refusal.Memory }
    ensures { result ≡ RowFault.Memory }
{
    match refusal {
        Refusal::Memory => RowFault::Memory,
        _ => unreachable!(),
    }
}

impl ReplayBuilder {
    /// The contest of all records, which is a valid one.
    pub(crate) fn into_contest(self) -> ReplayContest
        ensures same { result ≡ self }
        ensures valid { (thawed : Bool) → is_valid (replay_contest result.settings (marks_for result.settings thawed) result.submissions) ≡ true }
    {
        let teams = self.settings.teams().len();
        prove!(teams <= limits::TEAMS);
        ReplayContest::new(self.settings, self.submissions)
    }

    /// The contest with its head alone.
    ///
    /// # Errors
    ///
    /// `Malformed` where a number of the head is off its range, or want of memory.
    pub(crate) fn new(alloc: Global, head: ContestHead) -> Result<ReplayBuilder, RowFault>
        ensures ok { IfOk result (λ r. lists_of_head head ≡ Ok r) }
        ensures err { IfErr result (λ e. IsFaultOf e (lists_of_head head)) }
    {
        let mut settings = match Settings::new(alloc, head) {
            Ok(settings) => settings,
            Err(cause) => return Err(RowFault::Fault(cause)),
        };
        add_any_language(alloc, &mut settings)?;
        Ok(ReplayBuilder {
            settings,
            submissions: Vec::new(alloc),
            teams: Vec::new(alloc),
        })
    }

    /// Adds a judgement type.
    ///
    /// # Errors
    ///
    /// As `Settings::add_judgement_type` says.
    pub(crate) fn add_type(&mut self, alloc: Global, row: JudgementType) -> Result<(), RowFault>
        ensures ok { OnOk result (with_type_row self.old row ≡ Ok self.new) }
        ensures err { IfErr result (λ e. IsFaultOf e (with_type_row self.old row)) }
    {
        self.settings.add_judgement_type(alloc, row)?;
        Ok(())
    }

    /// Adds a problem.
    ///
    /// # Errors
    ///
    /// As `Settings::add_problem` says.
    pub(crate) fn add_problem(&mut self, alloc: Global, row: Problem) -> Result<(), RowFault>
        ensures ok { OnOk result (with_problem_row self.old row ≡ Ok self.new) }
        ensures err { IfErr result (λ e. IsFaultOf e (with_problem_row self.old row)) }
    {
        self.settings.add_problem(alloc, row)?;
        Ok(())
    }

    /// Adds a team.
    ///
    /// # Errors
    ///
    /// As `Settings::add_team` says.
    pub(crate) fn add_team(&mut self, alloc: Global, row: Team) -> Result<(), RowFault>
        ensures ok { OnOk result (with_team_row self.old row ≡ Ok self.new) }
        ensures err { IfErr result (λ e. IsFaultOf e (with_team_row self.old row)) }
    {
        self.teams.reserve(1)?;
        if self.settings.add_team(alloc, row)? {
            match self.teams.push(TeamProgress { last: 0, count: 0 }) {
                Ok(()) => (),
                Err(_) => unreachable!(),
            }
        }
        Ok(())
    }

    /// Adds the submission of a record.
    ///
    /// # Errors
    ///
    /// A field off its form (`Malformed`), a team, problem or judgement type that isn't there
    /// (`UnknownReference`), 500 submissions of the team standing (`TableFull`), a time outside the
    /// contest (`NotOpen`), or want of memory.
    pub(crate) fn add_submission(&mut self, fields: &ReplayRecord<'_>) -> Result<(), RowFault>
        ensures ok { OnOk result (with_submission self.old fields.now ≡ Ok self.new) }
        ensures err { IfErr result (λ e. IsFaultOf e (with_submission self.old fields.now)) }
    {
        let Some(time) = RelTime::from_bytes(fields.f2) else {
            return Err(RowFault::Fault(Cause::Malformed));
        };
        match refs_in(&self.settings, fields) {
            Some(refs) => self.push_submission(refs, time),
            None => Err(RowFault::Fault(reference_fault(fields))),
        }
    }

    /// Adds a submission to what is there.
    fn push_submission(&mut self, refs: SubmissionRefs, time: RelTime) -> Result<(), RowFault>
        requires { AreThere self.old.settings refs }
        ensures ok { OnOk result (submission_addition self.old refs time ≡ Ok self.new) }
        ensures err { IfErr result (λ e. IsFaultOf e (submission_addition self.old refs time)) }
    {
        let so_far = self.teams[refs.team];
        if so_far.is_full() {
            return Err(RowFault::Fault(Cause::TableFull));
        }
        let Some(time) = time_within(time, self.settings.head().duration) else {
            return Err(RowFault::Fault(Cause::NotOpen));
        };
        let grown = so_far.with_one_more(time);
        self.submissions.push(refs.submission(grown.last))?;
        self.teams[refs.team] = grown;
        Ok(())
    }
}

/// A contest time from the start to before the end, in milliseconds.
fn time_within(time: RelTime, duration: TimeSpan) -> Option<u64>
    ensures { result ≡ within duration time }
{
    let time = TimeSpan::from_reltime(time)?;
    if time < duration {
        Some(time.milliseconds())
    } else {
        None
    }
}
