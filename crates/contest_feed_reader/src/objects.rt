//! What the objects of a feed's settings say: judgement types, problems, groups and teams.
ghost use Rattle.std.specs.Prelude.{◌≡◌, [], IfOk, IfErr, codes};
ghost use Rattle.contest_files.specs.IdArrays.{ids_in};
ghost use Rattle.contest_files.specs.JsonMembers.{or_usual, present_in};
ghost use Rattle.serde_json.specs.View.{view};

use crate::feed_object::{FeedObject, first_name};
use contest_files::{flag_or_false, ids_in, name_in, present_in};
use contest_import::ordinal_in;
use contest_types::{Id, Name, Refusal, Rows};
use serde_json::Value;
use std::alloc::Global;

/// What a judgement type says beside its id.
#[derive(Drop)]
pub struct FeedType {
    /// Its name.
    pub name: Name,
    /// Whether it solves the problem.
    pub solved: bool,
    /// Whether it costs penalty time.
    pub penalty: bool,
}

/// What a problem says beside its id.
#[derive(Drop)]
pub struct FeedProblem {
    /// What heads its column on the board.
    pub label: Name,
    /// Its name.
    pub name: Name,
    /// Problems are shown by ordinal, then by id.
    pub ordinal: u16,
}

/// What a group says beside its id.
#[derive(Clone, Copy)]
pub struct FeedGroup {
    /// Whether its teams are hidden.
    pub hidden: bool,
}

/// What a team says beside its id.
#[derive(Drop)]
pub struct FeedTeam {
    /// Its name.
    pub name: Name,
    /// The ids of its groups, of which not all have to be there.
    pub groups: Rows<Id>,
    /// Whether it is hidden, whatever its groups are.
    pub hidden: bool,
}

impl FeedObject for FeedType {
    ghost use Rattle.contest_feed_reader.specs.Objects.{type_members};

    ghost members = { type_members };

    fn read(alloc: Global, object: &Value) -> Result<Option<FeedType>, Refusal> {
        let Some(solved) = flag_or_false(object, "solved") else {
            return Ok(None);
        };
        let Some(penalty) = flag_or_false(object, "penalty") else {
            return Ok(None);
        };
        let Some(name) = name_in(alloc, object, "name")? else {
            return Ok(None);
        };
        Ok(Some(FeedType {
            name,
            solved,
            penalty,
        }))
    }
}

impl FeedObject for FeedProblem {
    ghost use Rattle.contest_feed_reader.specs.Objects.{problem_members};

    ghost members = { problem_members };

    fn read(alloc: Global, object: &Value) -> Result<Option<FeedProblem>, Refusal> {
        let Some(ordinal) = ordinal_in(object) else {
            return Ok(None);
        };
        let Some(label) = name_in(alloc, object, "label")? else {
            return Ok(None);
        };
        let Some(name) = name_in(alloc, object, "name")? else {
            return Ok(None);
        };
        Ok(Some(FeedProblem {
            label,
            name,
            ordinal,
        }))
    }
}

impl FeedObject for FeedGroup {
    ghost use Rattle.contest_feed_reader.specs.Objects.{group_members};

    ghost members = { group_members };

    fn read(_alloc: Global, object: &Value) -> Result<Option<FeedGroup>, Refusal> {
        match flag_or_false(object, "hidden") {
            Some(hidden) => Ok(Some(FeedGroup { hidden })),
            None => Ok(None),
        }
    }
}

impl FeedObject for FeedTeam {
    ghost use Rattle.contest_feed_reader.specs.Objects.{team_members};

    ghost members = { team_members };

    fn read(alloc: Global, object: &Value) -> Result<Option<FeedTeam>, Refusal> {
        let Some(hidden) = flag_or_false(object, "hidden") else {
            return Ok(None);
        };
        let Some(name) = first_name(alloc, object, "display_name", "name")? else {
            return Ok(None);
        };
        let Some(groups) = groups_in(alloc, object)? else {
            return Ok(None);
        };
        Ok(Some(FeedTeam {
            name,
            groups,
            hidden,
        }))
    }
}

// The ids of a team's groups; none where they aren't there.
fn groups_in(alloc: Global, object: &Value) -> Result<Option<Rows<Id>>, Refusal>
    ensures value { IfOk result (λ found. found ≡ or_usual [] ids_in (present_in (codes "group_ids") (view object.now))) }
    ensures err { IfErr result (λ e. e ≡ Refusal.Memory) }
{
    match present_in(object, "group_ids") {
        Some(member) => ids_in(alloc, member),
        None => Ok(Some(Rows::new(alloc))),
    }
}
