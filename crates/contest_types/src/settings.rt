//! What a contest is set up with.
ghost use Rattle.std.specs.Prelude.{◌≡◌, ◌<◌, Ok, Err, Some, None, false, IfOk, IfErr, IfSome};
ghost use Rattle.std.specs.Prelude.{IsSome, OnErr, OnOk, length, map};
ghost use Rattle.contest_types.specs.IdText.{IsId};
ghost use Rattle.contest_types.specs.Setup.{Setup, IsValid, is_valid_head, has_valid_freeze};
ghost use Rattle.contest_types.specs.Setup.{has_valid_medals, labels_of, refers};
ghost use Rattle.contest_types.specs.Additions.{IsFaultOf};
ghost use Rattle.contest_types.specs.State.{with_duration, with_team_name};
ghost use Rattle.contest_types.specs.SetupAdditions.{IsNew, type_addition, language_addition};
ghost use Rattle.contest_types.specs.SetupAdditions.{problem_addition, group_addition};
ghost use Rattle.contest_types.specs.SetupAdditions.{team_addition, with_type, with_language};
ghost use Rattle.contest_types.specs.SetupAdditions.{with_problem, with_group, with_team};
ghost use Rattle.contest_types.specs.Places.{place_of, is_among};

use crate::id_list::{IdList, IdMatch, set_team_name};
use crate::{
    Cause, ContestHead, Group, JudgementType, Language, Medals, Name, Problem, RowFault, Team,
    TimeSpan, limits,
};
use std::alloc::{AllocError, Global};
use std::marker::Model;

/// The settings of a contest, always valid: ids and labels stand once, references hold, and all is
/// within its limits.
#[derive(Drop)]
pub struct Settings {
    head: ContestHead,
    types: IdList<JudgementType>,
    languages: IdList<Language>,
    problems: IdList<Problem>,
    groups: IdList<Group>,
    teams: IdList<Team>,
}

impl Model for Settings {
    ghost use Rattle.contest_types.specs.Setup.{Setup, IsValid};

    ghost Value = { Setup };

    ghost view = { λ s. record { head = s.head; types = s.types; languages = s.languages; problems = s.problems; groups = s.groups; teams = s.teams } };

    ghost invariant = { λ s. IsValid (record { head = s.head; types = s.types; languages = s.languages; problems = s.problems; groups = s.groups; teams = s.teams }) };
}

impl Settings {
    /// Settings of a contest with nothing in them yet.
    ///
    /// # Errors
    ///
    /// `Malformed` where a number of the head is off its range.
    pub fn new(alloc: Global, head: ContestHead) -> Result<Settings, Cause>
        ensures ok { IfOk result (λ s. IsNew head s) }
        ensures err { IfErr result (λ e. (e ≡ Cause.Malformed) × (is_valid_head head ≡ false)) }
    {
        if !is_valid_head(&head) {
            return Err(Cause::Malformed);
        }
        Ok(Settings {
            head,
            types: IdList::new(alloc),
            languages: IdList::new(alloc),
            problems: IdList::new(alloc),
            groups: IdList::new(alloc),
            teams: IdList::new(alloc),
        })
    }

    /// A copy of the settings.
    ///
    /// # Errors
    ///
    /// Want of memory alone.
    pub fn copied(&self, alloc: Global) -> Result<Settings, AllocError>
        ensures { IfOk result (λ copy. copy ≡ self.now) }
    {
        Ok(Settings {
            head: self.head.copied()?,
            types: self.types.copied(alloc)?,
            languages: self.languages.copied(alloc)?,
            problems: self.problems.copied(alloc)?,
            groups: self.groups.copied(alloc)?,
            teams: self.teams.copied(alloc)?,
        })
    }

    /// The contest's head.
    pub fn head(&self) -> &ContestHead
        ensures value { result.now ≡ self.now.head }
        ensures valid { IsValid self.now }
    {
        &self.head
    }

    /// The judgement types, in the order in which they were added.
    pub fn judgement_types(&self) -> &[JudgementType]
        ensures list { result.now ≡ self.now.types }
        ensures valid { IsValid self.now }
    {
        self.types.as_slice()
    }

    /// The languages, in the order in which they were added.
    pub fn languages(&self) -> &[Language]
        ensures list { result.now ≡ self.now.languages }
        ensures valid { IsValid self.now }
    {
        self.languages.as_slice()
    }

    /// The problems, in the order in which they were added.
    pub fn problems(&self) -> &[Problem]
        ensures list { result.now ≡ self.now.problems }
        ensures valid { IsValid self.now }
    {
        self.problems.as_slice()
    }

    /// The groups, in the order in which they were added.
    pub fn groups(&self) -> &[Group]
        ensures list { result.now ≡ self.now.groups }
        ensures valid { IsValid self.now }
    {
        self.groups.as_slice()
    }

    /// The teams, in the order in which they were added.
    pub fn teams(&self) -> &[Team]
        ensures list { result.now ≡ self.now.teams }
        ensures valid { IsValid self.now }
    {
        self.teams.as_slice()
    }

    /// The place of the judgement type with this id, from 0; none where no judgement type has it.
    pub fn judgement_type_place(&self, id: &[u8]) -> Option<usize>
        ensures place { result ≡ place_of id.now (map (λ t. t.id) self.now.types) }
        ensures within { IfSome result (λ place. place < length self.now.types) }
        ensures spelled { IsSome result → IsId id.now }
        ensures valid { IsValid self.now }
    {
        self.types.place(id)
    }

    /// The place of the language with this id, from 0; none where no language has it.
    pub fn language_place(&self, id: &[u8]) -> Option<usize>
        ensures place { result ≡ place_of id.now (map (λ l. l.id) self.now.languages) }
        ensures within { IfSome result (λ place. place < length self.now.languages) }
        ensures spelled { IsSome result → IsId id.now }
        ensures valid { IsValid self.now }
    {
        self.languages.place(id)
    }

    /// The place of the problem with this id, from 0; none where no problem has it.
    pub fn problem_place(&self, id: &[u8]) -> Option<usize>
        ensures place { result ≡ place_of id.now (map (λ p. p.id) self.now.problems) }
        ensures within { IfSome result (λ place. place < length self.now.problems) }
        ensures spelled { IsSome result → IsId id.now }
        ensures valid { IsValid self.now }
    {
        self.problems.place(id)
    }

    /// The place of the group with this id, from 0; none where no group has it.
    pub fn group_place(&self, id: &[u8]) -> Option<usize>
        ensures place { result ≡ place_of id.now (map (λ g. g.id) self.now.groups) }
        ensures within { IfSome result (λ place. place < length self.now.groups) }
        ensures spelled { IsSome result → IsId id.now }
        ensures valid { IsValid self.now }
    {
        self.groups.place(id)
    }

    /// The place of the team with this id, from 0; none where no team has it.
    pub fn team_place(&self, id: &[u8]) -> Option<usize>
        ensures place { result ≡ place_of id.now (map (λ t. t.id) self.now.teams) }
        ensures within { IfSome result (λ place. place < length self.now.teams) }
        ensures spelled { IsSome result → IsId id.now }
        ensures valid { IsValid self.now }
    {
        self.teams.place(id)
    }

    /// Adds a judgement type, and answers whether it did: where an equal one stands it adds
    /// nothing.
    ///
    /// # Errors
    ///
    /// Other content under its id (`KeyReused`), 40 of them standing (`TableFull`), or want of
    /// memory. The settings are then as before.
    pub fn add_judgement_type(
        &mut self,
        alloc: Global,
        judgement_type: JudgementType,
    ) -> Result<bool, RowFault>
        ensures ok { IfOk result (λ added. (type_addition self.old judgement_type ≡ Ok added) × (self.new ≡ with_type added self.old judgement_type)) }
        ensures err { IfErr result (λ e. IsFaultOf e (type_addition self.old judgement_type)) }
        ensures unchanged { OnErr result (self.new ≡ self.old) }
    {
        self.types
            .add(alloc, judgement_type, limits::JUDGEMENT_TYPES)
    }

    /// Adds a language, and answers whether it did: where an equal one stands it adds nothing.
    ///
    /// # Errors
    ///
    /// Other content under its id (`KeyReused`), 40 of them standing (`TableFull`), or want of
    /// memory. The settings are then as before.
    pub fn add_language(&mut self, alloc: Global, language: Language) -> Result<bool, RowFault>
        ensures ok { IfOk result (λ added. (language_addition self.old language ≡ Ok added) × (self.new ≡ with_language added self.old language)) }
        ensures err { IfErr result (λ e. IsFaultOf e (language_addition self.old language)) }
        ensures unchanged { OnErr result (self.new ≡ self.old) }
    {
        self.languages.add(alloc, language, limits::LANGUAGES)
    }

    /// Adds a problem, and answers whether it did: where an equal one stands it adds nothing.
    ///
    /// # Errors
    ///
    /// Other content under its id, or its label held by another problem (`KeyReused`), 40 of them
    /// standing (`TableFull`), or want of memory. The settings are then as before.
    pub fn add_problem(&mut self, alloc: Global, problem: Problem) -> Result<bool, RowFault>
        ensures ok { IfOk result (λ added. (problem_addition self.old problem ≡ Ok added) × (self.new ≡ with_problem added self.old problem)) }
        ensures err { IfErr result (λ e. IsFaultOf e (problem_addition self.old problem)) }
        ensures unchanged { OnErr result (self.new ≡ self.old) }
    {
        match self.problems.id_match(&problem) {
            IdMatch::Same => Ok(false),
            IdMatch::Other => Err(RowFault::Fault(Cause::KeyReused)),
            IdMatch::New => {
                if has_label(self.problems.as_slice(), &problem.label) {
                    return Err(RowFault::Fault(Cause::KeyReused));
                }
                self.problems.push_within(alloc, problem, limits::PROBLEMS)?;
                Ok(true)
            }
        }
    }

    /// Adds a group, and answers whether it did: where an equal one stands it adds nothing.
    ///
    /// # Errors
    ///
    /// Other content under its id (`KeyReused`), 50 of them standing (`TableFull`), or want of
    /// memory. The settings are then as before.
    pub fn add_group(&mut self, alloc: Global, group: Group) -> Result<bool, RowFault>
        ensures ok { IfOk result (λ added. (group_addition self.old group ≡ Ok added) × (self.new ≡ with_group added self.old group)) }
        ensures err { IfErr result (λ e. IsFaultOf e (group_addition self.old group)) }
        ensures unchanged { OnErr result (self.new ≡ self.old) }
    {
        self.groups.add(alloc, group, limits::GROUPS)
    }

    /// Adds a team, and answers whether it did: where an equal one stands it adds nothing.
    ///
    /// # Errors
    ///
    /// A group that isn't there (`UnknownReference`), other content under its id (`KeyReused`), 500
    /// of them standing (`TableFull`), or want of memory. The settings are then as before.
    pub fn add_team(&mut self, alloc: Global, team: Team) -> Result<bool, RowFault>
        ensures ok { IfOk result (λ added. (team_addition self.old team ≡ Ok added) × (self.new ≡ with_team added self.old team)) }
        ensures err { IfErr result (λ e. IsFaultOf e (team_addition self.old team)) }
        ensures unchanged { OnErr result (self.new ≡ self.old) }
    {
        if !refers(&team, self.groups.as_slice().len()) {
            return Err(RowFault::Fault(Cause::UnknownReference));
        }
        self.teams.add(alloc, team, limits::TEAMS)
    }

    /// Sets the duration, and the freeze duration, if there is one.
    ///
    /// # Errors
    ///
    /// `Malformed` where one of them is off its range. The settings are then as before.
    pub fn set_duration(
        &mut self,
        duration: TimeSpan,
        freeze: Option<TimeSpan>,
    ) -> Result<(), Cause>
        ensures ok { OnOk result (self.new ≡ with_duration self.old duration freeze) }
        ensures err { IfErr result (λ e. (e ≡ Cause.Malformed) × (is_valid_head (with_duration self.old duration freeze).head ≡ false)) }
        ensures unchanged { OnErr result (self.new ≡ self.old) }
    {
        let was = (self.head.duration, self.head.freeze);
        self.head.duration = duration;
        self.head.freeze = freeze;
        if is_valid_head(&self.head) {
            return Ok(());
        }
        (self.head.duration, self.head.freeze) = was;
        Err(Cause::Malformed)
    }

    /// Sets the name of the team at a place, from 0. Where no team is, nothing changes.
    pub fn set_team_name(&mut self, place: usize, name: Name)
        ensures { self.new ≡ with_team_name self.old place name }
    {
        set_team_name(&mut self.teams, place, name);
    }
}

/// Whether a problem has this label.
fn has_label(problems: &[Problem], label: &Name) -> bool
    ensures { result ≡ is_among (labels_of problems.now) label.now }
{
    problems.iter().any(|problem| problem.label == *label)
}

/// Whether each group that a team names is one of so many.
fn refers(team: &Team, groups: usize) -> bool
    ensures { result ≡ refers groups team.now }
{
    team.groups.as_slice().iter().all(|group| *group < groups)
}

/// Whether each number of a head is within its range.
fn is_valid_head(head: &ContestHead) -> bool
    ensures { result ≡ is_valid_head head.now }
{
    let duration = head.duration.milliseconds();
    0 < duration
        && duration <= limits::LONGEST_CONTEST
        && has_valid_freeze(head.freeze, duration)
        && head.penalty_time <= limits::PENALTY_MINUTES
        && has_valid_medals(head.medals)
}

fn has_valid_freeze(freeze: Option<TimeSpan>, duration: u64) -> bool
    ensures { result ≡ has_valid_freeze freeze duration }
{
    match freeze {
        None => true,
        Some(freeze) => freeze.milliseconds() <= duration,
    }
}

fn has_valid_medals(medals: Medals) -> bool
    ensures { result ≡ has_valid_medals medals }
{
    medals.gold <= limits::MEDAL_PLACES
        && medals.silver <= limits::MEDAL_PLACES
        && medals.bronze <= limits::MEDAL_PLACES
}
