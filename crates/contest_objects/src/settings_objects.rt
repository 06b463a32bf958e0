//! The rows of a contest's settings as they are served: everybody is served all of them alike.
ghost use Rattle.std.specs.Prelude.{◌≡◌, IfOk, option_map};
ghost use Rattle.serde_json.specs.Written.{compact_text};
ghost use Rattle.contest_objects.specs.Items.{array_of};
ghost use Rattle.contest_objects.specs.SettingsObjects.{problem_items, setting_found};
ghost use Rattle.contest_objects.specs.SettingsObjects.{settings_data};

use crate::collection::{Collection, Whole, get_whole, list_at, list_whole};
use crate::collection_object::CollectionObject;
use crate::json_text::Served;
use crate::members::{IdKind, Member, write_object};
use contest_types::{Group, JudgementType, Language, Problem, Settings, Team, problem_order};
use json::Writer;
use std::alloc::{AllocError, Global};

/// A collection of the settings (Contest API 2023-06, endpoints).
#[derive(Clone, Copy)]
pub enum SettingsEndpoint {
    /// As they were imported.
    Groups,
    /// As they were imported.
    JudgementTypes,
    /// As they were imported.
    Languages,
    /// By ordinal, then id.
    Problems,
    /// Hidden ones too, as they were imported.
    Teams,
}

/// The text of the array of an endpoint's objects.
///
/// # Errors
///
/// Want of memory alone.
pub fn settings_text(
    alloc: Global,
    settings: &Settings,
    endpoint: SettingsEndpoint,
) -> Result<Vec<u8>, AllocError>
    ensures { IfOk result (λ text. text.items ≡ compact_text (settings_data endpoint settings.now)) }
{
    match endpoint {
        SettingsEndpoint::Languages => list_whole(alloc, &Languages, settings.languages()),
        SettingsEndpoint::JudgementTypes => list_whole(
            alloc,
            &JudgementTypes,
            settings.judgement_types(),
        ),
        SettingsEndpoint::Groups => list_whole(alloc, &Groups, settings.groups()),
        SettingsEndpoint::Problems => problems_text(alloc, settings),
        SettingsEndpoint::Teams => list_whole(alloc, &Teams { settings }, settings.teams()),
    }
}

/// The text of the object of an endpoint with an id, if there is one.
///
/// # Errors
///
/// Want of memory alone.
pub fn setting_text(
    alloc: Global,
    settings: &Settings,
    endpoint: SettingsEndpoint,
    id: &[u8],
) -> Result<Option<Vec<u8>>, AllocError>
    ensures { IfOk result (λ found. option_map (λ text. text.items) found ≡ option_map compact_text (setting_found endpoint settings.now id.now)) }
{
    match endpoint {
        SettingsEndpoint::Languages => get_whole(alloc, &Languages, settings.languages(), id),
        SettingsEndpoint::JudgementTypes => get_whole(
            alloc,
            &JudgementTypes,
            settings.judgement_types(),
            id,
        ),
        SettingsEndpoint::Groups => get_whole(alloc, &Groups, settings.groups(), id),
        SettingsEndpoint::Problems => get_whole(alloc, &Problems, settings.problems(), id),
        SettingsEndpoint::Teams => get_whole(alloc, &Teams { settings }, settings.teams(), id),
    }
}

fn problems_text(alloc: Global, settings: &Settings) -> Result<Vec<u8>, AllocError>
    ensures { IfOk result (λ text. text.items ≡ compact_text (array_of (problem_items settings.now))) }
{
    let places = problem_order(alloc, settings)?;
    list_at(alloc, &Problems, settings.problems(), &places)
}

impl Served for JudgementType {
    ghost use Rattle.contest_objects.specs.SettingsObjects.{type_item};

    ghost value = { λ o. (type_item o).object };

    fn write(&self, out: &mut Writer) -> Result<(), AllocError> {
        write_object(
            out,
            &[
                ("id", Member::Text(self.id.as_str())),
                ("name", Member::Text(self.name.as_str())),
                ("penalty", Member::Flag(self.penalty)),
                ("solved", Member::Flag(self.solved)),
            ],
        )
    }
}

/// Judgement types (Contest API 2023-06, judgement-types): `id`, `name`, `penalty` and `solved`.
#[derive(Clone, Copy)]
pub struct JudgementTypes;

impl Collection for JudgementTypes {
    ghost use Rattle.std.specs.Prelude.{Some, codes};
    ghost use Rattle.contest_objects.specs.SettingsObjects.{type_item};

    type Row = JudgementType;

    ghost item = { λ c row. Some (type_item row) };

    ghost name = { codes "judgement-types" };

    fn object<'r>(&'r self, row: &'r JudgementType) -> Option<CollectionObject<'r>> {
        Some(CollectionObject::JudgementType(row))
    }
}

impl Whole for JudgementTypes {
    ghost use Rattle.std.specs.Prelude.{refl};
    ghost use Rattle.contest_objects.specs.SettingsObjects.{type_item};

    ghost whole = { λ c. type_item };

    ghost all = { λ c row. refl };
}

impl Served for Language {
    ghost use Rattle.contest_objects.specs.SettingsObjects.{language_item};

    ghost value = { λ o. (language_item o).object };

    fn write(&self, out: &mut Writer) -> Result<(), AllocError> {
        write_object(
            out,
            &[
                (
                    "entry_point_required",
                    Member::Flag(self.entry_point_required),
                ),
                ("id", Member::Text(self.id.as_str())),
                ("name", Member::Text(self.name.as_str())),
            ],
        )
    }
}

/// Languages (Contest API 2023-06, languages): `entry_point_required`, `id` and `name`.
#[derive(Clone, Copy)]
pub struct Languages;

impl Collection for Languages {
    ghost use Rattle.std.specs.Prelude.{Some, codes};
    ghost use Rattle.contest_objects.specs.SettingsObjects.{language_item};

    type Row = Language;

    ghost item = { λ c row. Some (language_item row) };

    ghost name = { codes "languages" };

    fn object<'r>(&'r self, row: &'r Language) -> Option<CollectionObject<'r>> {
        Some(CollectionObject::Language(row))
    }
}

impl Whole for Languages {
    ghost use Rattle.std.specs.Prelude.{refl};
    ghost use Rattle.contest_objects.specs.SettingsObjects.{language_item};

    ghost whole = { λ c. language_item };

    ghost all = { λ c row. refl };
}

impl Served for Problem {
    ghost use Rattle.contest_objects.specs.SettingsObjects.{problem_item};

    ghost value = { λ o. (problem_item o).object };

    fn write(&self, out: &mut Writer) -> Result<(), AllocError> {
        write_object(
            out,
            &[
                ("id", Member::Text(self.id.as_str())),
                ("label", Member::Text(self.label.as_str())),
                ("name", Member::Text(self.name.as_str())),
                ("ordinal", Member::Number(u64::from(self.ordinal))),
            ],
        )
    }
}

/// Problems (Contest API 2023-06, problems): `id`, `label`, `name` and `ordinal`.
#[derive(Clone, Copy)]
pub struct Problems;

impl Collection for Problems {
    ghost use Rattle.std.specs.Prelude.{Some, codes};
    ghost use Rattle.contest_objects.specs.SettingsObjects.{problem_item};

    type Row = Problem;

    ghost item = { λ c row. Some (problem_item row) };

    ghost name = { codes "problems" };

    fn object<'r>(&'r self, row: &'r Problem) -> Option<CollectionObject<'r>> {
        Some(CollectionObject::Problem(row))
    }
}

impl Whole for Problems {
    ghost use Rattle.std.specs.Prelude.{refl};
    ghost use Rattle.contest_objects.specs.SettingsObjects.{problem_item};

    ghost whole = { λ c. problem_item };

    ghost all = { λ c row. refl };
}

impl Served for Group {
    ghost use Rattle.contest_objects.specs.SettingsObjects.{group_item};

    ghost value = { λ o. (group_item o).object };

    fn write(&self, out: &mut Writer) -> Result<(), AllocError> {
        write_object(
            out,
            &[
                ("id", Member::Text(self.id.as_str())),
                ("name", Member::Text(self.name.as_str())),
            ],
        )
    }
}

/// Groups (Contest API 2023-06, groups): `id` and `name`.
#[derive(Clone, Copy)]
pub struct Groups;

impl Collection for Groups {
    ghost use Rattle.std.specs.Prelude.{Some, codes};
    ghost use Rattle.contest_objects.specs.SettingsObjects.{group_item};

    type Row = Group;

    ghost item = { λ c row. Some (group_item row) };

    ghost name = { codes "groups" };

    fn object<'r>(&'r self, row: &'r Group) -> Option<CollectionObject<'r>> {
        Some(CollectionObject::Group(row))
    }
}

impl Whole for Groups {
    ghost use Rattle.std.specs.Prelude.{refl};
    ghost use Rattle.contest_objects.specs.SettingsObjects.{group_item};

    ghost whole = { λ c. group_item };

    ghost all = { λ c row. refl };
}

/// A team (Contest API 2023-06, teams): `group_ids`, `hidden`, `id` and `name`.
#[derive(Clone, Copy)]
pub struct TeamObject<'a> {
    /// The contest's settings, with its groups.
    pub settings: &'a Settings,
    /// The team.
    pub team: &'a Team,
}

impl<'a> Served for TeamObject<'a> {
    ghost use Rattle.contest_objects.specs.SettingsObjects.{team_item};

    ghost value = { λ o. (team_item o.settings.now o.team.now).object };

    fn write(&self, out: &mut Writer) -> Result<(), AllocError> {
        let team = self.team;
        write_object(
            out,
            &[
                (
                    "group_ids",
                    Member::Ids(self.settings, IdKind::Group, team.groups.as_slice()),
                ),
                ("hidden", Member::Flag(team.hidden)),
                ("id", Member::Text(team.id.as_str())),
                ("name", Member::Text(team.name.as_str())),
            ],
        )
    }
}

/// Teams, hidden ones too.
#[derive(Clone, Copy)]
pub struct Teams<'a> {
    pub settings: &'a Settings,
}

impl<'a> Collection for Teams<'a> {
    ghost use Rattle.std.specs.Prelude.{Some, codes};
    ghost use Rattle.contest_objects.specs.SettingsObjects.{team_item};

    type Row = Team;

    ghost item = { λ c row. Some (team_item c.settings.now row) };

    ghost name = { codes "teams" };

    fn object<'r>(&'r self, row: &'r Team) -> Option<CollectionObject<'r>> {
        let team = TeamObject {
            settings: self.settings,
            team: row,
        };
        Some(CollectionObject::Team(team))
    }
}

impl<'a> Whole for Teams<'a> {
    ghost use Rattle.std.specs.Prelude.{refl};
    ghost use Rattle.contest_objects.specs.SettingsObjects.{team_item};

    ghost whole = { λ c. team_item c.settings.now };

    ghost all = { λ c row. refl };
}
