//! What stands at a place of the settings, by its id, name or label.
ghost use Rattle.std.specs.Prelude.{◌≡◌};
ghost use Rattle.contest_types.specs.ProblemPlaces.{label_at, problem_id_at};
ghost use Rattle.contest_types.specs.SettingsNames.{group_id_at, group_name_at, language_id_at};
ghost use Rattle.contest_types.specs.SettingsNames.{type_id_at};
ghost use Rattle.contest_types.specs.TeamPlaces.{name_at, team_id_at};

use crate::Settings;

impl Settings {
    /// The id of the judgement type at a place, from 0; empty where there is none.
    pub fn judgement_type_id(&self, place: usize) -> &str
        ensures { result.now ≡ type_id_at self.now place }
    {
        match self.judgement_types().get(place) {
            Some(judgement_type) => judgement_type.id.as_str(),
            None => "",
        }
    }

    /// The id of the language at a place, from 0; empty where there is none.
    pub fn language_id(&self, place: usize) -> &str
        ensures { result.now ≡ language_id_at self.now place }
    {
        match self.languages().get(place) {
            Some(language) => language.id.as_str(),
            None => "",
        }
    }

    /// The id of the problem at a place, from 0; empty where there is none.
    pub fn problem_id(&self, place: usize) -> &str
        ensures { result.now ≡ problem_id_at self.now.problems place }
    {
        match self.problems().get(place) {
            Some(problem) => problem.id.as_str(),
            None => "",
        }
    }

    /// The label of the problem at a place, from 0; empty where there is none.
    pub fn problem_label(&self, place: usize) -> &str
        ensures { result.now ≡ label_at self.now place }
    {
        match self.problems().get(place) {
            Some(problem) => problem.label.as_str(),
            None => "",
        }
    }

    /// The id of the group at a place, from 0; empty where there is none.
    pub fn group_id(&self, place: usize) -> &str
        ensures { result.now ≡ group_id_at self.now place }
    {
        match self.groups().get(place) {
            Some(group) => group.id.as_str(),
            None => "",
        }
    }

    /// The name of the group at a place, from 0; empty where there is none.
    pub fn group_name(&self, place: usize) -> &str
        ensures { result.now ≡ group_name_at self.now place }
    {
        match self.groups().get(place) {
            Some(group) => group.name.as_str(),
            None => "",
        }
    }

    /// The id of the team at a place, from 0; empty where there is none.
    pub fn team_id(&self, place: usize) -> &str
        ensures { result.now ≡ team_id_at self.now place }
    {
        match self.teams().get(place) {
            Some(team) => team.id.as_str(),
            None => "",
        }
    }

    /// The name of the team at a place, from 0; empty where there is none.
    pub fn team_name(&self, place: usize) -> &str
        ensures { result.now ≡ name_at self.now place }
    {
        match self.teams().get(place) {
            Some(team) => team.name.as_str(),
            None => "",
        }
    }
}
