//! The objects that settings list.
ghost use Rattle.std.specs.Prelude.{◌≡◌};
ghost use Rattle.contest_types.specs.PlainRows.{plain_group, plain_language, plain_problem};
ghost use Rattle.contest_types.specs.PlainRows.{plain_team, plain_type};

use crate::id_list::Identified;
use crate::{Id, Name, Rows};
use std::alloc::{AllocError, Global};

/// A judgement type (Contest API 2023-06, judgement-types).
#[derive(PartialEq, Eq, Drop)]
pub struct JudgementType {
    /// The judgement type's id, such as `AC`.
    pub id: Id,
    /// The judgement type's name.
    pub name: Name,
    /// Whether it solves the problem.
    pub solved: bool,
    /// Whether it costs penalty time.
    pub penalty: bool,
}

/// A language (Contest API 2023-06, languages).
#[derive(PartialEq, Eq, Drop)]
pub struct Language {
    /// The language's id.
    pub id: Id,
    /// The language's name.
    pub name: Name,
    /// Whether a submission in it needs an entry point.
    pub entry_point_required: bool,
}

/// A problem (Contest API 2023-06, problems).
#[derive(PartialEq, Eq, Drop)]
pub struct Problem {
    /// The problem's id.
    pub id: Id,
    /// What heads its column on the board. No two problems share a label.
    pub label: Name,
    /// The problem's name.
    pub name: Name,
    /// Problems are shown by ordinal, then by id.
    pub ordinal: u16,
}

/// A group of teams (Contest API 2023-06, groups).
#[derive(PartialEq, Eq, Drop)]
pub struct Group {
    /// The group's id.
    pub id: Id,
    /// The group's name.
    pub name: Name,
}

/// A team (Contest API 2023-06, teams).
#[derive(PartialEq, Eq, Drop)]
pub struct Team {
    /// The team's id.
    pub id: Id,
    /// The team's name.
    pub name: Name,
    /// The places of its groups in the settings, from 0 and in the order in which they were given.
    pub groups: Rows<usize>,
    /// A hidden team is on no board, and others don't see its submissions.
    pub hidden: bool,
}

impl JudgementType {
    /// A judgement type with what each has.
    pub fn new(id: Id, name: Name, solved: bool, penalty: bool) -> JudgementType
        ensures { result ≡ plain_type id name solved penalty }
    {
        JudgementType {
            id,
            name,
            solved,
            penalty,
        }
    }
}

impl Language {
    /// A language in which no entry point is needed.
    pub fn new(id: Id, name: Name) -> Language
        ensures { result ≡ plain_language id name }
    {
        Language {
            id,
            name,
            entry_point_required: false,
        }
    }
}

impl Problem {
    /// A problem with what each has.
    pub fn new(id: Id, label: Name, name: Name, ordinal: u16) -> Problem
        ensures { result ≡ plain_problem id label name ordinal }
    {
        Problem {
            id,
            label,
            name,
            ordinal,
        }
    }
}

impl Group {
    /// A group with what each has.
    pub fn new(id: Id, name: Name) -> Group
        ensures { result ≡ plain_group id name }
    {
        Group { id, name }
    }
}

impl Team {
    /// A team of no group, which isn't hidden.
    pub fn new(alloc: Global, id: Id, name: Name) -> Team
        ensures { result ≡ plain_team id name }
    {
        Team {
            id,
            name,
            groups: Rows::new(alloc),
            hidden: false,
        }
    }
}

impl Identified for JudgementType {
    ghost id = { λ row. row.id };

    fn id(&self) -> &Id {
        &self.id
    }

    fn copied(&self, _alloc: Global) -> Result<JudgementType, AllocError> {
        Ok(JudgementType {
            id: self.id.clone()?,
            name: self.name.clone()?,
            solved: self.solved,
            penalty: self.penalty,
        })
    }
}

impl Identified for Language {
    ghost id = { λ row. row.id };

    fn id(&self) -> &Id {
        &self.id
    }

    fn copied(&self, _alloc: Global) -> Result<Language, AllocError> {
        Ok(Language {
            id: self.id.clone()?,
            name: self.name.clone()?,
            entry_point_required: self.entry_point_required,
        })
    }
}

impl Identified for Problem {
    ghost id = { λ row. row.id };

    fn id(&self) -> &Id {
        &self.id
    }

    fn copied(&self, _alloc: Global) -> Result<Problem, AllocError> {
        Ok(Problem {
            id: self.id.clone()?,
            label: self.label.clone()?,
            name: self.name.clone()?,
            ordinal: self.ordinal,
        })
    }
}

impl Identified for Group {
    ghost id = { λ row. row.id };

    fn id(&self) -> &Id {
        &self.id
    }

    fn copied(&self, _alloc: Global) -> Result<Group, AllocError> {
        Ok(Group {
            id: self.id.clone()?,
            name: self.name.clone()?,
        })
    }
}

impl Identified for Team {
    ghost id = { λ row. row.id };

    fn id(&self) -> &Id {
        &self.id
    }

    fn copied(&self, alloc: Global) -> Result<Team, AllocError> {
        Ok(Team {
            id: self.id.clone()?,
            name: self.name.clone()?,
            groups: Rows::from_vec(Vec::from_slice(alloc, self.groups.as_slice())?),
            hidden: self.hidden,
        })
    }
}
